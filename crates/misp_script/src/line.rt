//! Reads a line.

ghost use Rattle.std.specs.Prelude.{IfOk, length};
ghost use Rattle.misp_script.specs.Fields.{Shows};
ghost use Rattle.misp_script.specs.Step.{step_data, command_data, step_of, IsPlaced};

use crate::command::{command, read_verb};
use crate::directory::Directory;
use crate::field::{BadLine, field_in, kept, next_field};
use crate::numbers::{time, word};
use crate::step::Step;

/// The step that a line says, among the instances of a directory: a time, a word, and a verb with
/// its fields, with single spaces between.
#[tactic(auto, unfolding(crate::specs::Step::step_of))]
pub fn read_line<'a>(line: &'a [u8], directory: &Directory) -> Result<Step<'a>, BadLine>
    ensures step { Shows step_data result (step_of directory.now line.now) }
    ensures placed { IfOk result
        (λ step. IsPlaced (length directory.now) (command_data step.command)) }
{
    let time_field = field_in(line, line);
    let time = kept(time_field.place, time(time_field.text))?;
    let word_field = next_field(line, &time_field)?;
    let word = kept(word_field.place, word(word_field.text))?;
    let verb_field = next_field(line, &word_field)?;
    let verb = kept(verb_field.place, read_verb(verb_field.text))?;
    match command(line, directory, verb, &verb_field) {
        Ok(command) => Ok(Step {
            time,
            word,
            command,
        }),
        Err(bad) => Err(bad),
    }
}
