//! The declared interval of a parameter.

ghost use Rattle.std.specs.Prelude.{◌≡◌, ◌≤◌, ◌<◌};
ghost use Rattle.model_line.specs.Parameters.{param_count, declared_ends, declared_middle};

use crate::line::Line;

impl Line {
    /// The least number of ticks that is declared for a parameter.
    pub fn least(&self, param: u32) -> u32
        requires { param < param_count self.now }
        ensures number { result ≡ (declared_ends self.now param).least }
        ensures small { result ≤ 4000 }
    {
        self.params[param as usize].least
    }

    /// The greatest number of ticks that is declared for a parameter.
    pub fn greatest(&self, param: u32) -> u32
        requires { param < param_count self.now }
        ensures number { result ≡ (declared_ends self.now param).greatest }
        ensures ordered { (declared_ends self.now param).least ≤ result }
        ensures small { result ≤ 4000 }
    {
        self.params[param as usize].greatest
    }

    /// The middle of what is declared for a parameter; of two middle numbers the earlier.
    pub fn middle(&self, param: u32) -> u32
        requires { param < param_count self.now }
        ensures number { result ≡ declared_middle self.now param }
        ensures least { (declared_ends self.now param).least ≤ result }
        ensures greatest { result ≤ (declared_ends self.now param).greatest }
    {
        (self.least(param) + self.greatest(param)) / 2
    }
}
