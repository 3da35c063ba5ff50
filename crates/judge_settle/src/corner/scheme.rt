//! The schemes that read every number at one end alone, and the ends and rails at which they do.

ghost use Rattle.std.specs.Prelude.{◌≡◌, ◌↔◌, IsTrue};
ghost use Rattle.model_settle.specs.Schemes.{IsOneRailedBy, HasNoWeakEnd};
ghost use Rattle.model_settle.specs.Schemes.{key_rail as rail_of_keys, end_for};
ghost use Rattle.judge_settle.specs.corner.Named.{rail_named, end_named};

use crate::corner::rail::{End, Rail};
use model_line::{Line, Scheme, Setting};
use model_logic::is_terminal_weak;

/// Whether the line's scheme makes every trip one-railed: PUTT, DTT, DCB, and POTT without weak
/// ends.
pub fn is_one_railed(line: &Line) -> bool
    ensures { IsTrue result ↔ IsOneRailedBy line.now.scheme line.now }
{
    match line.scheme {
        Scheme::Putt | Scheme::Dtt | Scheme::Dcb => true,
        Scheme::Pott => has_no_weak_end(line),
        Scheme::Dcub => false,
    }
}

// Whether no terminal is a weak infeed.
fn has_no_weak_end(line: &Line) -> bool
    ensures { IsTrue result ↔ HasNoWeakEnd line.now }
{
    for k in 0..line.terminals.len() {
        if is_terminal_weak(line, k as u32) {
            return false;
        }
    }
    true
}

/// The rail that reads the keys where trips are read on this one.
pub fn key_rail(scheme: Scheme, rail: Rail) -> Rail
    ensures { rail_named result ≡ rail_of_keys scheme (rail_named rail) }
{
    match scheme {
        Scheme::Dcb => rail.turned(),
        Scheme::Pott | Scheme::Putt | Scheme::Dcub | Scheme::Dtt => rail,
    }
}

/// The end at which a setting is asked for where trips are read on this rail. What no trip asks for
/// is taken at its least.
pub fn end_of(rail: Rail, setting: Setting) -> End
    ensures { end_named result ≡ end_for (rail_named rail) setting }
{
    match setting {
        Setting::Z1Pickup => rail.pickup_end(),
        Setting::Z1Dropout => rail.dropout_end(),
        Setting::Z2Pickup => rail.pickup_end(),
        Setting::Z2Dropout => rail.dropout_end(),
        Setting::RvPickup => rail.turned().pickup_end(),
        Setting::RvDropout => rail.turned().dropout_end(),
        Setting::ReversalPickup => rail.turned().pickup_end(),
        Setting::ReversalDropout => rail.turned().dropout_end(),
        Setting::BlockCarry => rail.turned().dropout_end(),
        Setting::BlockCoord => rail.pickup_end(),
        Setting::TransferSecurity => rail.pickup_end(),
        Setting::UvPickup
        | Setting::UvDropout
        | Setting::EchoBlock
        | Setting::EchoPickup
        | Setting::EchoPulse
        | Setting::UnblockPickup
        | Setting::UnblockWindow
        | Setting::UnblockRestore
        | Setting::Delay => End::Least,
    }
}
