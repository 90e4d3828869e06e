// Scripts and guidelines put together record by record, and calls of the engine: for the programs that execute the edges of document 01. These
// lend what is filled, and so stay in fixed memory: `file_into`, `run_plain_into`, `rehearse_into`. What `file_of`, `run_plain` and `rehearse` fill
// they hand on. Nothing here reads the engine's own encoding, so that what these programs print tests it too.
#![tactic(auto)]

mod calls;

ghost use Rattle.std.specs.Prelude.{◌≡◌, ℕ, List, ◌++◌, ◌*◌, ◌≤◌, IfOk, flat_map, length, vec_len};
ghost use Rattle.samples.specs.Records.{script_kind, script_spare, script_number, script_bytes, guideline_head, first_number, second_number, guideline_bytes};

pub use calls::{
    BUFFERS, Buffers, Numbers, Plain, Rehearsal, rehearse, rehearse_into, run_plain, run_plain_into,
};
use std::alloc::{AllocError, Global};

// A record of N bytes. A file is the bytes of records in a row: what `file_of` and `file_into` make of a list, or an array of them as one slice.
pub trait Record<const N: usize>: Copy {
    ghost bytes_of: { Self → List ℕ };

    fn bytes(self) -> [u8; N]
        ensures { result ≡ bytes_of self };
}

// The file of these records, in memory of its own.
pub fn file_of<const N: usize, T: Record<N>>(
    alloc: Global,
    records: &[T],
) -> Result<Vec<u8>, AllocError>
    requires { N ≤ 16 }
    ensures items { IfOk result (λ file. file.items ≡ flat_map T.bytes_of records.now) }
    ensures len { IfOk result (λ file. vec_len file ≡ N * length records.now) }
{
    let mut file = Vec::new(alloc);
    for record in records {
        file.extend_from_slice(&record.bytes())?;
    }
    Ok(file)
}

// The same in the front of a buffer that has room for it, so that it can't fail.
pub fn file_into<'a, const N: usize, T: Record<N>>(records: &[T], buffer: &'a mut [u8]) -> &'a [u8]
    requires { N * length records.now ≤ length buffer.old }
    ensures items { result.now ≡ flat_map T.bytes_of records.now }
    ensures len { length result.now ≡ N * length records.now }
{
    let mut end = 0;
    for record in records {
        buffer[end..end + N].copy_from_slice(&record.bytes());
        end += N;
    }
    &buffer[..end]
}

// A script's record. A variable, a function name, a constant and so on have a number; where it is always 0, none stands here.
#[derive(Clone, Copy)]
pub enum ScriptRecord {
    Variable(u32),
    Function(u32),
    Constant(u32),
    Abstraction(u32),
    Application,
    CallEvent(u32),
    Emit(u32),
    Definition(u32),
    Sum,
    Branch,
    // A record that no script may have: byte 1 is set, or the number or the kind is out of range.
    Faulty { kind: u8, spare: u8, number: u32 },
}

impl ScriptRecord {
    fn kind(self) -> u8
        ensures { result ≡ script_kind self }
    {
        match self {
            ScriptRecord::Variable(_) => 1,
            ScriptRecord::Function(_) => 2,
            ScriptRecord::Constant(_) => 3,
            ScriptRecord::Abstraction(_) => 4,
            ScriptRecord::Application => 5,
            ScriptRecord::CallEvent(_) => 6,
            ScriptRecord::Emit(_) => 7,
            ScriptRecord::Definition(_) => 8,
            ScriptRecord::Sum => 9,
            ScriptRecord::Branch => 10,
            ScriptRecord::Faulty { kind, .. } => kind,
        }
    }

    // Byte 1, which is zero in a record that may be.
    fn spare(self) -> u8
        ensures { result ≡ script_spare self }
    {
        match self {
            ScriptRecord::Faulty { spare, .. } => spare,
            _ => 0,
        }
    }

    fn number(self) -> u32
        ensures { result ≡ script_number self }
    {
        match self {
            ScriptRecord::Variable(number)
            | ScriptRecord::Function(number)
            | ScriptRecord::Constant(number)
            | ScriptRecord::Abstraction(number)
            | ScriptRecord::CallEvent(number)
            | ScriptRecord::Emit(number)
            | ScriptRecord::Definition(number)
            | ScriptRecord::Faulty { number, .. } => number,
            ScriptRecord::Application | ScriptRecord::Sum | ScriptRecord::Branch => 0,
        }
    }
}

impl Record<8> for ScriptRecord {
    ghost bytes_of = { script_bytes };

    fn bytes(self) -> [u8; 8] {
        let [a, b, c, d] = self.number().to_le_bytes();
        [self.kind(), self.spare(), 0, 0, a, b, c, d]
    }
}

// A guideline's record, of those that the edges need.
#[derive(Clone, Copy)]
pub enum GuidelineRecord {
    // p0 holds of two constants.
    Fact(u32, u32),
    // The predicate of two variables, in a rule.
    Head {
        predicate: u8,
        first: u8,
        second: u8,
    },
    Atom {
        predicate: u8,
        first: u8,
        second: u8,
    },
    // The function that is logged, and one of its triggers.
    Logged(u32),
    Trigger(u32),
    // t_i < t_j.
    Earlier {
        i: u8,
        j: u8,
    },
    // The predicate holds of x_i and x_j.
    Holds {
        predicate: u8,
        i: u8,
        j: u8,
    },
    // No call of the function since t_i.
    NoCall {
        i: u8,
        function: u32,
    },
}

impl GuidelineRecord {
    // Its first four bytes.
    fn head(self) -> [u8; 4]
        ensures { result ≡ guideline_head self }
    {
        match self {
            GuidelineRecord::Fact(..) => [1, 0, 3, 3],
            GuidelineRecord::Head {
                predicate,
                first,
                second,
            } => [2, predicate, first, second],
            GuidelineRecord::Atom {
                predicate,
                first,
                second,
            } => [3, predicate, first, second],
            GuidelineRecord::Logged(_) => [4, 0, 0, 0],
            GuidelineRecord::Trigger(_) => [5, 0, 0, 0],
            GuidelineRecord::Earlier { i, j } => [6, 0, i, j],
            GuidelineRecord::Holds { predicate, i, j } => [7, predicate, i, j],
            GuidelineRecord::NoCall { i, .. } => [9, 0, i, 0],
        }
    }

    fn numbers(self) -> (u32, u32)
        ensures { (result.0 ≡ first_number self) × (result.1 ≡ second_number self) }
    {
        match self {
            GuidelineRecord::Fact(first, second) => (first, second),
            GuidelineRecord::Logged(function)
            | GuidelineRecord::Trigger(function)
            | GuidelineRecord::NoCall { function, .. } => (function, 0),
            GuidelineRecord::Head { .. }
            | GuidelineRecord::Atom { .. }
            | GuidelineRecord::Earlier { .. }
            | GuidelineRecord::Holds { .. } => (0, 0),
        }
    }
}

impl Record<16> for GuidelineRecord {
    ghost bytes_of = { guideline_bytes };

    fn bytes(self) -> [u8; 16] {
        let [k, l, m, n] = self.head();
        let (first, second) = self.numbers();
        let [a, b, c, d] = first.to_le_bytes();
        let [e, f, g, h] = second.to_le_bytes();
        [k, l, m, n, a, b, c, d, e, f, g, h, 0, 0, 0, 0]
    }
}

#[cfg(test)]
mod tests {
    use super::*;
    use std::test::Fail;

    // A script and a guideline that show each form of record.
    #[test]
    fn bytes_of_records(rt: HostRuntime) -> Result<(), Fail> {
        let script = file_of(
            rt.alloc(),
            &[
                ScriptRecord::Abstraction(9),
                ScriptRecord::Constant(0x04030201),
            ],
        )?;
        assert_eq!(rt;
            script.as_slice(),
            [4, 0, 0, 0, 9, 0, 0, 0, 3, 0, 0, 0, 1, 2, 3, 4].as_slice()
        );
        let guideline = file_of(rt.alloc(), &[GuidelineRecord::Fact(1, 0x100)])?;
        assert_eq!(rt;
            guideline.as_slice(),
            [1, 0, 3, 3, 1, 0, 0, 0, 0, 1, 0, 0, 0, 0, 0, 0].as_slice()
        );
        Ok(())
    }

    // The same two files in a buffer.
    #[test]
    fn bytes_in_a_buffer(rt: HostRuntime) -> Result<(), Fail> {
        let mut buffer = [0; 16];
        let script = file_into(
            &[
                ScriptRecord::Abstraction(9),
                ScriptRecord::Constant(0x04030201),
            ],
            &mut buffer,
        );
        assert_eq!(rt;
            script,
            [4, 0, 0, 0, 9, 0, 0, 0, 3, 0, 0, 0, 1, 2, 3, 4].as_slice()
        );
        let guideline = file_into(&[GuidelineRecord::Fact(1, 0x100)], &mut buffer);
        assert_eq!(rt;
            guideline,
            [1, 0, 3, 3, 1, 0, 0, 0, 0, 1, 0, 0, 0, 0, 0, 0].as_slice()
        );
        Ok(())
    }

    // 0xfffffffe + 1, in one step.
    #[test]
    fn plain_run_of_a_sum(rt: HostRuntime) -> Result<(), Fail> {
        let script = file_of(
            rt.alloc(),
            &[
                ScriptRecord::Sum,
                ScriptRecord::Constant(0xfffffffe),
                ScriptRecord::Constant(1),
            ],
        )?;
        let ran = run_plain(&script, 1);
        assert!(rt; ran.answer.is_ok());
        assert_eq!(rt;
            &ran.expression[..9],
            [3, 0, 0, 0, 255, 255, 255, 255, 0].as_slice()
        );
        Ok(())
    }

    // Function 0 is called with 7 in the first step, at time 0, and that is logged. Zeros follow the one entry.
    #[test]
    fn rehearsal_of_a_call(rt: HostRuntime) -> Result<(), Fail> {
        let script = file_of(
            rt.alloc(),
            &[
                ScriptRecord::Definition(0),
                ScriptRecord::Variable(0),
                ScriptRecord::Application,
                ScriptRecord::Function(0),
                ScriptRecord::Constant(7),
            ],
        )?;
        let guideline = file_of(rt.alloc(), &[GuidelineRecord::Logged(0)])?;
        let ran = rehearse(&script, &guideline, 1);
        assert!(rt; ran.answer.is_ok());
        assert_eq!(rt;
            &ran.expression[..9],
            [3, 0, 0, 0, 7, 0, 0, 0, 0].as_slice()
        );
        let log = [0, 0, 0, 0, 0, 0, 0, 0, 3, 0, 0, 0, 7, 0, 0, 0, 0];
        assert_eq!(rt; &ran.log[..17], log.as_slice());
        Ok(())
    }
}
