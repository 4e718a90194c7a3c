//! The signal of 64 lanes of three values.

ghost use Rattle.std.specs.Prelude.{◌≡◌, ◌<◌, ◌%◌};
ghost use Rattle.scan_signals.specs.Rails.{InLane, IsRails, lane_allows, lane_off, lane_on, rails, rails_opened};
ghost use Rattle.scan_signals.specs.RailLaws.{number_kept, rails_allowed, rails_choice_known, rails_lattice};
ghost use Rattle.scan_signals.specs.Words.{IsBit};

use crate::lane::Lane;
use crate::operations::Operations;
use crate::relation::Relation;
use crate::signal::Signal;
use crate::tri::Tri;
use std::marker::Model;

/// Sixty-four lanes of three values. A lane is ON where its bit of `on` is 1, OFF where its bit of `off` is 1, and OPEN where
/// neither is.
#[derive(Clone, Copy)]
pub struct Rails {
    on: u64,
    off: u64,
}

impl Model for Rails {
    ghost use Rattle.scan_signals.specs.Rails.{AreRails, Lanes};

    ghost Value = { Lanes };

    ghost view = { λ r. record { on = r.on; off = r.off } };

    ghost invariant = { λ r. AreRails r.on r.off };

    ghost inverse = { λ v. record { on = v.on; off = v.off } };
}

impl Operations for Rails {
    ghost algebra = { rails };

    ghost value = { IsRails };

    ghost choice_known = { rails_choice_known };

    /// The same known value in all lanes.
    fn known(b: bool) -> Rails {
        Rails {
            on: if b { u64::MAX } else { 0 },
            off: if b { 0 } else { u64::MAX },
        }
    }

    /// The OR in each lane: known OFF where both are.
    fn or(self, other: Rails) -> Rails {
        Rails {
            on: self.on | other.on,
            off: self.off & other.off,
        }
    }

    /// The AND in each lane: known ON where both are.
    fn and(self, other: Rails) -> Rails {
        Rails {
            on: self.on & other.on,
            off: self.off | other.off,
        }
    }

    /// The inverse in each lane: ON and OFF change places, and what is unsure stays so.
    fn not(self) -> Rails {
        Rails {
            on: self.off,
            off: self.on,
        }
    }

    /// The choice in each lane: where the condition is unsure, what both sides agree on.
    fn choose(condition: Rails, on: Rails, off: Rails) -> Rails {
        Rails {
            on: (condition.on & on.on) | (condition.off & off.on) | (on.on & off.on),
            off: (condition.on & on.off) | (condition.off & off.off) | (on.off & off.off),
        }
    }

    /// Whatever `Rails` holds is a value, by its invariant.
    fn is_value(self) -> bool {
        let _rails = self.on;
        true
    }
}

impl Signal for Rails {
    ghost place = { IsBit };

    ghost allows = { lane_allows };

    ghost lattice = { rails_lattice };

    ghost allowed = { rails_allowed };
}

/// The lanes that are ON and those that are OFF for the open bit of weight 2 ^ t.
fn open_lanes(t: u32) -> (u64, u64)
    ensures on { result.0 ≡ lane_on t }
    ensures off { result.1 ≡ lane_off t }
{
    if t == 1 {
        (0x8888_8888_8888_8888, 0x2222_2222_2222_2222)
    } else if t == 2 {
        (0xE0E0_E0E0_E0E0_E0E0, 0x0E0E_0E0E_0E0E_0E0E)
    } else if t == 3 {
        (0xFE00_FE00_FE00_FE00, 0x00FE_00FE_00FE_00FE)
    } else if t == 4 {
        (0xFFFE_0000_FFFE_0000, 0x0000_FFFE_0000_FFFE)
    } else if t == 5 {
        (0xFFFF_FFFE_0000_0000, 0x0000_0000_FFFF_FFFE)
    } else {
        (0, 0)
    }
}

impl Rails {
    /// The lanes of an open bit of weight 2 ^ `shift`, where each lane leaves the last `unit` bits unsure.
    pub fn opened(unit: u32, shift: u32) -> Rails
        ensures { result ≡ rails_opened unit shift }
    {
        if shift < unit {
            Rails { on: 0, off: 0 }
        } else {
            let (on, off) = open_lanes(shift - unit);
            Rails { on, off }
        }
    }

    /// The value in a lane.
    fn lane(self, lane: u32) -> Tri
        requires { lane < 64 }
        ensures { InLane lane self result }
    {
        if (self.on >> lane) & 1 == 1 {
            Tri::On
        } else if (self.off >> lane) & 1 == 1 {
            Tri::Off
        } else {
            Tri::Unsure
        }
    }
}

/// The lane with this number, modulo 64.
#[derive(Clone, Copy)]
pub struct RailLane {
    pub number: u64,
}

impl Relation for RailLane {
    type Left = Rails;

    type Right = Tri;

    ghost related = { λ at. InLane (at.number % 64) };

    ghost kept = { λ at. number_kept at.number };
}

impl Lane for RailLane {
    /// The value of three in this lane.
    fn read(self, wide: Rails) -> Tri {
        wide.lane((self.number % 64) as u32)
    }
}
