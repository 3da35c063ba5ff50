//! What a record tells of the place of a script.

ghost use Rattle.std.specs.Prelude.{◌≡◌, ◌<◌, [], IfOk, IfSome, None, decimal, length, option_map};
ghost use Rattle.file_study.specs.sweeps.Places.{place_values};
ghost use Rattle.call_verdicts.specs.Records.{fault_name as name_of_fault, number_text};
ghost use Rattle.call_verdicts.specs.Records.{swept_text as text_of_swept};

use crate::fields::times;
use file_study::sweeps::Place;
use model_line::Memory;
use std::alloc::Global;

/// The fault's name; nothing where there is no such place.
pub fn fault_name<'a>(place: Option<Place<'a>>) -> &'a [u8]
    ensures { result.now ≡ name_of_fault (option_map place_values place.entry) }
{
    match place {
        Some(place) => place.group.name.bytes(),
        None => b"",
    }
}

/// The number of the place, counted from 1.
pub fn number_in(place: Option<Place<'_>>) -> Option<usize>
    requires { IfSome place (λ p. p.at < length p.group.now.swept.items) }
    ensures some { IfSome result (λ n.
        number_text (option_map place_values place.entry) ≡ decimal n) }
    ensures none { result ≡ None → number_text (option_map place_values place.entry) ≡ [] }
{
    match place {
        Some(place) => Some(place.at + 1),
        None => None,
    }
}

/// The values of the swept times.
pub fn swept_text(alloc: Global, tick_us: u32, place: Option<Place<'_>>) -> Result<Vec<u8>, Memory>
    requires { IfSome place (λ p. p.at < length p.group.now.swept.items) }
    ensures { IfOk result (λ text.
        text.items ≡ text_of_swept tick_us (option_map place_values place.entry)) }
{
    match place {
        Some(place) => times(alloc, tick_us, place.group.swept[place.at].as_slice()),
        None => Ok(Vec::new(alloc)),
    }
}
