//! The page of each code of a fault.

ghost use Rattle.std.specs.Prelude.{◌≡◌, is_some, position};
ghost use Rattle.std.specs.Str.{str_eq_ignore_ascii_case};
ghost use Rattle.cli_options.specs.Pages.{fault_codes, is_fault_code};

use crate::list::{CODES, PAGES, TITLES};

/// Where a code is among the codes, whatever the letter case.
fn number_in(codes: &[&str], code: &str) -> Option<usize>
    ensures { result ≡ position (λ c. str_eq_ignore_ascii_case code.now c.now) codes.now }
{
    codes.iter().position(|c| code.eq_ignore_ascii_case(c))
}

/// The number of a code among all codes, which is that of its page.
fn number_of(code: &str) -> Option<usize>
    ensures { result ≡ position (λ c. str_eq_ignore_ascii_case code.now c) fault_codes }
{
    number_in(&CODES, code)
}

/// The page of a fault: its section of `docs/user/faults.md`, from the heading on, each line with its end. Letter case makes no difference.
pub fn page_of(code: &str) -> Option<&'static str>
    ensures { is_some result ≡ is_fault_code code.now }
{
    match number_of(code) {
        Some(number) => Some(PAGES[number]),
        None => None,
    }
}

/// All codes with their titles, a line each, in the order of `docs/user/faults.md`.
pub fn codes() -> &'static str {
    TITLES
}
