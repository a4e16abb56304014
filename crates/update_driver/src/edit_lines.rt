//! The lines of edits on `err`.

ghost use Rattle.std.specs.Prelude.{◌≡◌, OnOk, string_bytes};
ghost use Rattle.update_driver.specs.Events.{busy_line, edit_line};

use command_output::EntryName;
use net_model::EntryId;
use std::alloc::AllocError;
use update_flight::Edit;

/// The name of an entry.
fn named(entry: EntryId) -> EntryName
    ensures { result ≡ record { entry = entry } }
{
    EntryName { entry }
}

/// Writes the line of an edit, in place of what the text held; none where no edit was left.
#[tactic(auto, unfolding(crate::specs::Events::edit_line))]
pub(crate) fn write_edit_line(line: &mut String, edit: Edit) -> Result<(), AllocError>
    ensures { OnOk result (string_bytes line.new ≡ edit_line edit) }
{
    line.clear();
    match edit {
        Edit::Added { entry } => write!(line, "edit add {}\n", named(entry)),
        Edit::Switched => write!(line, "edit switch\n"),
        Edit::Removed { entry } => write!(line, "edit remove {}\n", named(entry)),
        Edit::Finished => Ok(()),
    }
}

/// Writes the line of a removal that waits for the packet of a number, in the same way.
#[tactic(auto, unfolding(crate::specs::Events::busy_line))]
pub(crate) fn write_busy_line(line: &mut String, number: u32) -> Result<(), AllocError>
    ensures { OnOk result (string_bytes line.new ≡ busy_line number) }
{
    line.clear();
    write!(line, "edit busy {number}\n")
}
