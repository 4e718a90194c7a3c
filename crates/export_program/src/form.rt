//! How a text writes the addresses of a drawing.

ghost use Rattle.std.specs.Prelude.{◌≡◌};
ghost use Rattle.export_program.specs.Declarations.{address_in};

use diagram_declarations::Address;

/// How a text writes the addresses of a drawing.
#[derive(Clone, Copy, Debug, PartialEq, Eq)]
pub enum AddressForm {
    /// As the drawing does.
    Plain,
    /// By byte and bit: place 13 of inputs, `%IX13`, is bit 5 of byte 1, `%IX1.5`. An address that has two numbers already can't be written so.
    Bits,
}

/// The address that a text has in place of that of the drawing; None where it can't be written in this form.
pub(crate) fn address_in(form: AddressForm, address: Address) -> Option<Address>
    ensures { result ≡ address_in form address }
{
    match (form, address.second) {
        (AddressForm::Plain, _) => Some(address),
        (AddressForm::Bits, None) => Some(Address {
            letter: address.letter,
            first: address.first / 8,
            second: Some(address.first % 8),
        }),
        (AddressForm::Bits, Some(_)) => None,
    }
}
