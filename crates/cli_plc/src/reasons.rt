//! What a program can't have, as a word and as a sentence.

ghost use Rattle.std.specs.Prelude.{◌≡◌};
ghost use Rattle.cli_plc.specs.Reasons.{reason_sentence, reason_word};

use plc_text::PlcReason;

/// The word that the line of a fault ends with, behind a blank.
pub(crate) fn reason_word(reason: PlcReason) -> &'static [u8]
    ensures { result.now ≡ reason_word reason }
{
    match reason {
        PlcReason::Name => b" name\n",
        PlcReason::Twice => b" declared_twice\n",
        PlcReason::Retain => b" retain\n",
        PlcReason::Address => b" address\n",
        PlcReason::AddressTwice => b" address_twice\n",
        PlcReason::Initial => b" initial_value\n",
        PlcReason::Undeclared => b" not_declared\n",
        PlcReason::Type => b" type\n",
        PlcReason::Unknown => b" unknown_element\n",
        PlcReason::SameNumber => b" same_number\n",
        PlcReason::Value => b" value\n",
        PlcReason::Edge => b" edge\n",
        PlcReason::Modifier => b" modifier\n",
        PlcReason::Block => b" block\n",
        PlcReason::Formal => b" input_or_output\n",
        PlcReason::Preset => b" preset\n",
        PlcReason::NoPreset => b" no_preset\n",
        PlcReason::Jump => b" jump\n",
        PlcReason::Connection => b" connection\n",
        PlcReason::Powerless => b" no_power\n",
        PlcReason::Unconnected => b" not_connected\n",
        PlcReason::Parallel => b" parallel_coil\n",
        PlcReason::Second => b" called_twice\n",
        PlcReason::Late => b" called_late\n",
    }
}

/// The sentence that explains it.
pub(crate) fn reason_sentence(reason: PlcReason) -> &'static [u8]
    ensures { result.now ≡ reason_sentence reason }
{
    match reason {
        PlcReason::Name => {
            b"N5: the name has other characters than letters, digits and underscores\n"
        }
        PlcReason::Twice => { b"N5: the name is declared twice\n" }
        PlcReason::Retain => {
            b"N5: variables that are retained, persistent or constant can't be declared by a program\n"
        }
        PlcReason::Address => { b"N5: the address isn't one that a program can have\n" }
        PlcReason::AddressTwice => { b"N5: another variable has this address\n" }
        PlcReason::Initial => { b"N5: the value at the start isn't TRUE or FALSE\n" }
        PlcReason::Undeclared => {
            b"N5: the name isn't declared, or isn't a BOOL or a standard function block\n"
        }
        PlcReason::Type => {
            b"N5: the name is of a type that a program can't have, or of another type than is due here\n"
        }
        PlcReason::Unknown => { b"N5: this kind of element isn't known\n" }
        PlcReason::SameNumber => { b"N5: two elements have this number\n" }
        PlcReason::Value => {
            b"N5: a position, a number or an attribute of the element can't be read\n"
        }
        PlcReason::Edge => { b"N5: only contacts and coils can have an edge\n" }
        PlcReason::Modifier => { b"N5: the element can't be negated or stored so\n" }
        PlcReason::Block => {
            b"N5: the block isn't one of TON, TOF, TP, CTU, CTD, SR, RS, R_TRIG and F_TRIG (--open takes others, but for inOutVariables), or its type isn't the one that is declared\n"
        }
        PlcReason::Formal => {
            b"N5: the block has no such input or output, or it is given twice\n"
        }
        PlcReason::Preset => {
            b"N5: the preset is no literal, or not one that the block can have\n"
        }
        PlcReason::NoPreset => { b"N5: the preset of the block is missing\n" }
        PlcReason::Jump => {
            b"N5: a jump leads down, to one label, and not into or out of what another one passes over\n"
        }
        PlcReason::Connection => { b"N5: no element has the number that a connection refers to\n" }
        PlcReason::Powerless => { b"N5: it is connected with something that has no power\n" }
        PlcReason::Unconnected => { b"N5: nothing is connected on the left of the contact\n" }
        PlcReason::Parallel => {
            b"N5: coils in parallel with others have one connection on their left, which is no rail\n"
        }
        PlcReason::Second => { b"N5: the block is drawn twice\n" }
        PlcReason::Late => { b"N5: the block is called after something that its output leads to\n" }
    }
}
