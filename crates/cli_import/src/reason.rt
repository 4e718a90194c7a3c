//! Why an element can't be carried over, as a word and as a line.

ghost use Rattle.std.specs.Prelude.{◌≡◌};
ghost use Rattle.cli_import.specs.Reasons.{reason_line, reason_word};

use clp_import::Reason;

/// The word that the line of a refusal ends with.
pub(crate) fn reason_word(reason: Reason) -> &'static [u8]
    ensures { result.now ≡ reason_word reason }
{
    match reason {
        Reason::Counter => b"counter",
        Reason::Compare => b"compare",
        Reason::Operate => b"operate",
        Reason::Call => b"call",
        Reason::Unknown => b"unknown_element",
        Reason::Step => b"step",
        Reason::RunningContact => b"running_contact",
        Reason::OtherContact => b"other_contact",
        Reason::WritesInput => b"writes_an_input",
        Reason::OtherCoil => b"other_coil",
        Reason::LargeNumber => b"large_number",
        Reason::OutOfPlace => b"out_of_place",
        Reason::BelowJump => b"below_a_jump",
        Reason::BlockPlaces => b"broken_block",
        Reason::Switched => b"switched_control",
        Reason::NoPreset => b"no_preset",
        Reason::Twice => b"drawn_twice",
        Reason::ReadsLate => b"reads_late",
        Reason::NoPower => b"no_power",
        Reason::Running => b"running_output",
        Reason::Elsewhere => b"jump_elsewhere",
    }
}

/// The line that explains why an element can't be carried over.
pub(crate) fn reason_line(reason: Reason) -> &'static [u8]
    ensures { result.now ≡ reason_line reason }
{
    match reason {
        Reason::Counter => {
            b"P6: a counter counts up and down, goes round at 9999, and is done at its preset alone\n"
        }
        Reason::Compare =>
            b"P6: a compare block compares numbers, which the language doesn't have\n",
        Reason::Operate =>
            b"P6: an operate block computes numbers, which the language doesn't have\n",
        Reason::Call => b"P6: subroutines are not carried over\n",
        Reason::Unknown => b"P6: this kind of element isn't known, or stands inside a block\n",
        Reason::Step => b"P6: the contact reads a step of a sequential chart\n",
        Reason::RunningContact => b"P6: the contact reads the running output of a timer\n",
        Reason::OtherContact => b"P6: the contact reads what a program doesn't have\n",
        Reason::WritesInput => b"P6: the coil writes an input\n",
        Reason::OtherCoil => b"P6: the coil writes what a program doesn't have\n",
        Reason::LargeNumber => b"P6: an address has at most five digits\n",
        Reason::OutOfPlace => b"P6: coils and jumps stand in column 10, and contacts before it\n",
        Reason::BelowJump =>
            b"P6: where the jump is taken, ClassicLadder doesn't evaluate what is below it\n",
        Reason::BlockPlaces => b"P6: the places of this block are not those of a block\n",
        Reason::Switched => b"P6: the control input of this timer isn't joined with its input\n",
        Reason::NoPreset =>
            b"P6: the preset of this block is missing, or longer than a timer has it\n",
        Reason::Twice => b"P6: the block is drawn twice\n",
        Reason::ReadsLate => b"P6: the contact reads a block that comes before it in its rung\n",
        Reason::NoPower =>
            b"P6: no power can come to this coil, and ClassicLadder writes it nevertheless\n",
        Reason::Running => b"P6: power comes from the running output of a timer\n",
        Reason::Elsewhere => b"P6: the jump doesn't lead to a later rung of its section\n",
    }
}
