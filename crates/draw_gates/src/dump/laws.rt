//! The laws of identifier codes.

ghost use Rattle.std.specs.Prelude.{◌≡◌, ◌<◌, ℕ, length};
ghost use Rattle.draw_gates.specs.dump.Codes.{ArePrintable, AreApart};

/// Each identifier code is two printable characters, `!` to `~`, and no two gates have the same.
pub fn codes_are_apart()
    ensures printable { ArePrintable }
    ensures apart { AreApart }
{}
