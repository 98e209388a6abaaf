ghost use Rattle.reader.specs.Reading.{Filled, Answered};
ghost use Rattle.reader.specs.Settled.{Settled, SettledUnlessMemory};

use super::refusal::Refusal;
use super::space::Space;
use super::text::read_text;
use faults::Fault;
use problem::Problem;
use std::alloc::Global;

// Reads a text into the problem passed; a refusal leaves that as it was.
pub fn read(text: &[u8], problem: &mut Problem, heap: Global) -> Result<(), Refusal>
    ensures answer { Answered text.now problem.old problem.new result }
    ensures settled { SettledUnlessMemory text.now result }
{
    let space = Space::new(heap)?;
    read_into(text, space, problem)?;
    Ok(())
}

// The same with memory that was asked for already.
pub fn read_into(text: &[u8], space: Space, problem: &mut Problem) -> Result<(), Fault>
    ensures answer { Filled text.now problem.old problem.new result }
    ensures settled { Settled text.now result }
{
    *problem = read_text(text, space)?;
    Ok(())
}
