//! The parts of a terminal's logic that have a name, in the order in which they are told.

ghost use Rattle.std.specs.Prelude.{◌≡◌, ◌++◌, ◌<◌, ◌∷◌, [], IfOk, List, true};
ghost use Rattle.model_history.specs.Each.{each_below};
ghost use Rattle.model_line.specs.declared.line.Line.{Line};
ghost use Rattle.model_line.specs.Parameters.{terminal_count, channel_count};
ghost use Rattle.model_logic.specs.Elements.{is_guarded, is_weak};
ghost use Rattle.model_plain.specs.{declared.role.Role.Role, Formulas.own_tree};
ghost use Rattle.model_plain.specs.declared.role.Role.TheVariants as role;
ghost use Rattle.model_plain.specs.Roles.{AreNamedParts, role_tree, roles_at, at as place_at};
ghost use Rattle.model_plain.specs.Roles.{seen_roles, channel_roles, window_roles, scheme_roles};
ghost use Rattle.model_plain.specs.Roles.{if_so, receiver as receiver_of, sender as sender_of};

use crate::blocking::coordinated;
use crate::formula::Formula;
use crate::permissive::{guard_formula, permission};
use crate::received::{any_received, received};
use crate::role::{NamedPart, Role};
use crate::seen_elements::element_formula;
use crate::unblocking::{locked_out, unblocked};
use crate::weak::echo;
use base_memory::Memory;
use model_line::{Element, Line, Place, Scheme};
use model_logic::{is_terminal_guarded, is_terminal_weak};
use std::alloc::Global;

/// The named parts of a terminal, by the line's scheme: what it sees, at once and timed; of each
/// channel that ends at it, in line order, whether it is lost, what arrives, what is received, and
/// in unblocking the window and the lockout; then guard, echo and permission, or the coordination
/// and what any other sends.
pub fn named_parts(alloc: Global, line: &Line, k: u32) -> Result<Vec<NamedPart>, Memory>
    requires { k < terminal_count line.now }
    ensures { IfOk result (λ parts. AreNamedParts line.now (roles_at line.now k) parts.items) }
{
    let seen = seen_parts(alloc, line, k);
    let heard = with_channels(alloc, line, k, seen);
    with_scheme(alloc, line, k, heard)
}

// One part more.
fn with_named(
    parts: Result<Vec<NamedPart>, Memory>,
    role: Role,
    formula: Result<Formula, Memory>,
) -> Result<Vec<NamedPart>, Memory>
    ensures { (line : Line) (roles : List Role)
        → IfOk parts (λ ps. AreNamedParts line roles ps.items)
        → IfOk formula (λ f. own_tree f ≡ role_tree line role)
        → IfOk result (λ ps. AreNamedParts line (roles ++ role ∷ []) ps.items) }
{
    let mut parts = parts?;
    let formula = formula?;
    parts.push(NamedPart { role, formula })?;
    Ok(parts)
}

// ---- what it sees

// Each element at once, and then timed.
fn seen_parts(alloc: Global, line: &Line, k: u32) -> Result<Vec<NamedPart>, Memory>
    requires { k < terminal_count line.now }
    ensures { IfOk result (λ parts. AreNamedParts line.now (seen_roles k) parts.items) }
{
    let zone1 = with_seen(Ok(Vec::new(alloc)), k, Element::Z1);
    let zone2 = with_seen(zone1, k, Element::Z2);
    let reverse = with_seen(zone2, k, Element::Rv);
    let voltage = with_seen(reverse, k, Element::Uv);
    let at_once = with_seen(voltage, k, Element::Cur);
    let timed_zone1 = with_timed(alloc, line, at_once, k, Element::Z1);
    let timed_zone2 = with_timed(alloc, line, timed_zone1, k, Element::Z2);
    let timed_reverse = with_timed(alloc, line, timed_zone2, k, Element::Rv);
    with_timed(alloc, line, timed_reverse, k, Element::Uv)
}

fn with_seen(
    parts: Result<Vec<NamedPart>, Memory>,
    k: u32,
    element: Element,
) -> Result<Vec<NamedPart>, Memory>
    ensures { (line : Line) (roles : List Role)
        → IfOk parts (λ ps. AreNamedParts line roles ps.items)
        → IfOk result (λ ps. AreNamedParts line
        (roles ++ role.Seen (place_at k element) ∷ []) ps.items) }
{
    let place = Place {
        element,
        terminal: k,
    };
    with_named(parts, Role::Seen(place), Ok(Formula::Seen(place)))
}

fn with_timed(
    alloc: Global,
    line: &Line,
    parts: Result<Vec<NamedPart>, Memory>,
    k: u32,
    element: Element,
) -> Result<Vec<NamedPart>, Memory>
    requires { k < terminal_count line.now }
    ensures { (roles : List Role) → IfOk parts (λ ps. AreNamedParts line.now roles ps.items)
        → IfOk result (λ ps. AreNamedParts line.now
        (roles ++ role.Timed (place_at k element) ∷ []) ps.items) }
{
    let timed = element_formula(alloc, line, k, element);
    let place = Place {
        element,
        terminal: k,
    };
    with_named(parts, Role::Timed(place), timed)
}

// ---- what it hears

// The channels that end at it.
fn with_channels(
    alloc: Global,
    line: &Line,
    k: u32,
    parts: Result<Vec<NamedPart>, Memory>,
) -> Result<Vec<NamedPart>, Memory>
    ensures { (roles : List Role) → IfOk parts (λ ps. AreNamedParts line.now roles ps.items)
        → IfOk result (λ ps. AreNamedParts line.now
        (roles ++ each_below (channel_count line.now) (channel_roles line.now k)) ps.items) }
{
    let mut all = parts;
    for c in 0..line.channels.len() {
        all = with_channel(alloc, line, k, c as u32, all);
    }
    all
}

// A channel, if it ends at it.
fn with_channel(
    alloc: Global,
    line: &Line,
    k: u32,
    c: u32,
    parts: Result<Vec<NamedPart>, Memory>,
) -> Result<Vec<NamedPart>, Memory>
    ensures { (roles : List Role) → IfOk parts (λ ps. AreNamedParts line.now roles ps.items)
        → IfOk result (λ ps. AreNamedParts line.now
        (roles ++ channel_roles line.now k c) ps.items) }
{
    if receiver(line, c) == k {
        with_heard(alloc, line, c, parts)
    } else {
        parts
    }
}

// What a channel gives to the terminal at which it ends.
fn with_heard(
    alloc: Global,
    line: &Line,
    c: u32,
    parts: Result<Vec<NamedPart>, Memory>,
) -> Result<Vec<NamedPart>, Memory>
    ensures { (roles : List Role) → IfOk parts (λ ps. AreNamedParts line.now roles ps.items)
        → IfOk result (λ ps. AreNamedParts line.now
        (roles ++ (role.Lost c ∷ (role.Raw c ∷ (role.Received c
        ∷ window_roles line.now.scheme c)))) ps.items) }
{
    let lost = with_named(parts, Role::Lost(c), Ok(Formula::Loss(c)));
    let raw = with_named(lost, Role::Raw(c), Ok(Formula::Raw(c)));
    let signal = received(alloc, line, receiver(line, c), sender(line, c));
    let heard = with_named(raw, Role::Received(c), signal);
    with_window(alloc, line, c, heard)
}

// What an unblocking line makes of its loss.
fn with_window(
    alloc: Global,
    line: &Line,
    c: u32,
    parts: Result<Vec<NamedPart>, Memory>,
) -> Result<Vec<NamedPart>, Memory>
    ensures { (roles : List Role) → IfOk parts (λ ps. AreNamedParts line.now roles ps.items)
        → IfOk result (λ ps. AreNamedParts line.now
        (roles ++ window_roles line.now.scheme c) ps.items) }
{
    match line.scheme {
        Scheme::Dcub => with_open(alloc, line, c, parts),
        Scheme::Pott | Scheme::Putt | Scheme::Dcb | Scheme::Dtt => parts,
    }
}

fn with_open(
    alloc: Global,
    line: &Line,
    c: u32,
    parts: Result<Vec<NamedPart>, Memory>,
) -> Result<Vec<NamedPart>, Memory>
    ensures { (roles : List Role) → IfOk parts (λ ps. AreNamedParts line.now roles ps.items)
        → IfOk result (λ ps. AreNamedParts line.now
        (roles ++ (role.Window c ∷ (role.Lockout c ∷ []))) ps.items) }
{
    let to = receiver(line, c);
    let from = sender(line, c);
    let window = with_named(parts, Role::Window(c), unblocked(alloc, line, to, from));
    with_named(window, Role::Lockout(c), locked_out(alloc, line, to, from))
}

/// The terminal at which a channel ends; the first where there is no such channel.
pub fn receiver(line: &Line, channel: u32) -> u32
    ensures { result ≡ receiver_of line.now channel }
{
    match line.channels.as_slice().get(channel as usize) {
        Some(channel) => channel.to,
        None => 0,
    }
}

/// The terminal from which it comes.
pub fn sender(line: &Line, channel: u32) -> u32
    ensures { result ≡ sender_of line.now channel }
{
    match line.channels.as_slice().get(channel as usize) {
        Some(channel) => channel.from,
        None => 0,
    }
}

// ---- what its scheme makes of that

fn with_scheme(
    alloc: Global,
    line: &Line,
    k: u32,
    parts: Result<Vec<NamedPart>, Memory>,
) -> Result<Vec<NamedPart>, Memory>
    requires { k < terminal_count line.now }
    ensures { (roles : List Role) → IfOk parts (λ ps. AreNamedParts line.now roles ps.items)
        → IfOk result (λ ps. AreNamedParts line.now
        (roles ++ scheme_roles line.now.scheme line.now k) ps.items) }
{
    match line.scheme {
        Scheme::Pott | Scheme::Dcub => with_permission(alloc, line, k, parts),
        Scheme::Dcb => with_coordination(alloc, line, k, parts),
        Scheme::Putt | Scheme::Dtt => with_any(alloc, line, k, parts),
    }
}

fn with_coordination(
    alloc: Global,
    line: &Line,
    k: u32,
    parts: Result<Vec<NamedPart>, Memory>,
) -> Result<Vec<NamedPart>, Memory>
    requires { k < terminal_count line.now }
    ensures { (roles : List Role) → IfOk parts (λ ps. AreNamedParts line.now roles ps.items)
        → IfOk result (λ ps. AreNamedParts line.now
        (roles ++ (role.Coordination k ∷ (role.AnyReceived k ∷ []))) ps.items) }
{
    let waited = with_named(parts, Role::Coordination(k), coordinated(alloc, line, k));
    with_any(alloc, line, k, waited)
}

fn with_any(
    alloc: Global,
    line: &Line,
    k: u32,
    parts: Result<Vec<NamedPart>, Memory>,
) -> Result<Vec<NamedPart>, Memory>
    requires { k < terminal_count line.now }
    ensures { (roles : List Role) → IfOk parts (λ ps. AreNamedParts line.now roles ps.items)
        → IfOk result (λ ps. AreNamedParts line.now (roles ++ role.AnyReceived k ∷ []) ps.items) }
{
    with_named(parts, Role::AnyReceived(k), any_received(alloc, line, k))
}

fn with_permission(
    alloc: Global,
    line: &Line,
    k: u32,
    parts: Result<Vec<NamedPart>, Memory>,
) -> Result<Vec<NamedPart>, Memory>
    requires { k < terminal_count line.now }
    ensures { (roles : List Role) → IfOk parts (λ ps. AreNamedParts line.now roles ps.items)
        → IfOk result (λ ps. AreNamedParts line.now (roles
        ++ (if_so (is_guarded line.now k) (role.Guard k) ++ if_so (is_weak line.now k) (role.Echo k)
        ++ (role.Permission k ∷ []))) ps.items) }
{
    let guard = with_guard(alloc, line, k, parts);
    let echo = with_echo(alloc, line, k, guard);
    with_named(echo, Role::Permission(k), permission(alloc, line, k))
}

fn with_guard(
    alloc: Global,
    line: &Line,
    k: u32,
    parts: Result<Vec<NamedPart>, Memory>,
) -> Result<Vec<NamedPart>, Memory>
    requires { k < terminal_count line.now }
    ensures { (roles : List Role) → IfOk parts (λ ps. AreNamedParts line.now roles ps.items)
        → IfOk result (λ ps. AreNamedParts line.now
        (roles ++ if_so (is_guarded line.now k) (role.Guard k)) ps.items) }
{
    if is_terminal_guarded(line, k) {
        with_named(parts, Role::Guard(k), guard_formula(alloc, line, k))
    } else {
        parts
    }
}

fn with_echo(
    alloc: Global,
    line: &Line,
    k: u32,
    parts: Result<Vec<NamedPart>, Memory>,
) -> Result<Vec<NamedPart>, Memory>
    requires { k < terminal_count line.now }
    ensures { (roles : List Role) → IfOk parts (λ ps. AreNamedParts line.now roles ps.items)
        → IfOk result (λ ps. AreNamedParts line.now
        (roles ++ if_so (is_weak line.now k) (role.Echo k)) ps.items) }
{
    if is_terminal_weak(line, k) {
        with_named(parts, Role::Echo(k), echo(alloc, line, k))
    } else {
        parts
    }
}
