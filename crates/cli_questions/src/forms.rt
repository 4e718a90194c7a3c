//! The form in which groups are written.

ghost use Rattle.std.specs.Prelude.{◌≡◌};
ghost use Rattle.cli_questions.specs.Forms.{form_on};

use cli_arguments::GroupFormat;
use text_causes::GroupForm;

/// The form for the groups of a coil.
pub fn form_of(form: GroupFormat, coil: usize) -> GroupForm
    ensures { result ≡ form_on form coil }
{
    match form {
        GroupFormat::Table => GroupForm::Table,
        GroupFormat::Terms => GroupForm::Terms,
        GroupFormat::Statement => GroupForm::Statement { coil },
    }
}
