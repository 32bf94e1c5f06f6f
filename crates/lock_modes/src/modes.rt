//! The modes that one transaction has on one name.

ghost use Rattle.std.specs.Prelude.{◌≡◌};
ghost use Rattle.lock_modes.specs.Modes.{has_mode, with_mode, no_modes, hinders, is_held, is_covered, writes, is_ranged};

use crate::mode::{Mode, compatible, covers};

/// A set of modes.
#[derive(Clone, Copy, Debug, PartialEq, Eq)]
pub struct Modes {
    pub s2: bool,
    pub s3: bool,
    pub u2: bool,
    pub u3: bool,
    pub ip: bool,
    pub x2: bool,
    pub x3: bool,
    pub t_is: bool,
    pub t_ix: bool,
    pub t_s: bool,
    pub t_x: bool,
}

/// Each mode once, rows before tables.
pub const ALL: [Mode; 11] = [
    Mode::S2,
    Mode::S3,
    Mode::U2,
    Mode::U3,
    Mode::Ip,
    Mode::X2,
    Mode::X3,
    Mode::TIs,
    Mode::TIx,
    Mode::TS,
    Mode::TX,
];

impl Modes {
    /// The empty set.
    pub fn none() -> Modes
        ensures exact { result ≡ no_modes }
    {
        Modes {
            s2: false,
            s3: false,
            u2: false,
            u3: false,
            ip: false,
            x2: false,
            x3: false,
            t_is: false,
            t_ix: false,
            t_s: false,
            t_x: false,
        }
    }

    pub fn has(self, mode: Mode) -> bool
        ensures exact { result ≡ has_mode self mode }
    {
        match mode {
            Mode::S2 => self.s2,
            Mode::S3 => self.s3,
            Mode::U2 => self.u2,
            Mode::U3 => self.u3,
            Mode::Ip => self.ip,
            Mode::X2 => self.x2,
            Mode::X3 => self.x3,
            Mode::TIs => self.t_is,
            Mode::TIx => self.t_ix,
            Mode::TS => self.t_s,
            Mode::TX => self.t_x,
        }
    }

    /// Whether the set has any mode.
    #[tactic(auto, unfolding(crate::specs::Modes::is_held))]
    pub fn is_held(self) -> bool
        ensures exact { result ≡ is_held self }
    {
        ALL.iter().any(|a| self.has(*a))
    }

    /// This set with one mode more.
    pub fn with(mut self, mode: Mode) -> Modes
        ensures exact { result ≡ with_mode self mode }
    {
        match mode {
            Mode::S2 => self.s2 = true,
            Mode::S3 => self.s3 = true,
            Mode::U2 => self.u2 = true,
            Mode::U3 => self.u3 = true,
            Mode::Ip => self.ip = true,
            Mode::X2 => self.x2 = true,
            Mode::X3 => self.x3 = true,
            Mode::TIs => self.t_is = true,
            Mode::TIx => self.t_ix = true,
            Mode::TS => self.t_s = true,
            Mode::TX => self.t_x = true,
        }
        self
    }

    /// Whether a mode of the set isn't compatible with this mode.
    #[tactic(auto, unfolding(crate::specs::Modes::hinders))]
    pub fn hinders(self, mode: Mode) -> bool
        ensures exact { result ≡ hinders self mode }
    {
        ALL.iter().any(|a| self.has(*a) && !compatible(*a, mode))
    }

    /// Whether a mode of the set covers this mode.
    #[tactic(auto, unfolding(crate::specs::Modes::is_covered))]
    pub fn covers(self, mode: Mode) -> bool
        ensures exact { result ≡ is_covered self mode }
    {
        ALL.iter().any(|a| self.has(*a) && covers(*a, mode))
    }

    /// Whether the set has a mode of one who changes.
    pub fn writes(self) -> bool
        ensures exact { result ≡ writes self }
    {
        self.u2 || self.u3 || self.x2 || self.x3
    }

    /// Whether the set has a mode that also holds the gap.
    pub fn is_ranged(self) -> bool
        ensures exact { result ≡ is_ranged self }
    {
        self.s3 || self.u3 || self.x3
    }
}
