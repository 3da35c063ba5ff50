//! Microseconds as exact decimals of milliseconds.

ghost use Rattle.std.specs.Prelude.{◌≡◌, ◌<◌, ◌++◌, OnOk};
ghost use Rattle.base_text.specs.lines.Milliseconds.{digit_of, ms_text, thousandths, ticks_text};

use itoa::Buffer;
use std::alloc::AllocError;

/// Appends so many ticks, each of so many microseconds, as milliseconds.
pub fn push_ticks(text: &mut Vec<u8>, tick_us: u32, t: u32) -> Result<(), AllocError>
    ensures { OnOk result (text.new.items ≡ text.old.items ++ ticks_text tick_us t) }
{
    push_ms(text, t as u64 * tick_us as u64)
}

/// Appends so many microseconds as milliseconds, as `12.25`.
pub fn push_ms(text: &mut Vec<u8>, us: u64) -> Result<(), AllocError>
    ensures { OnOk result (text.new.items ≡ text.old.items ++ ms_text us) }
{
    let mut digits = Buffer::new();
    text.extend_from_slice(digits.format(us / 1000).as_bytes())?;
    push_thousandths(text, us % 1000)
}

// Appends thousandths behind a point, without zeros at the end.
fn push_thousandths(text: &mut Vec<u8>, n: u64) -> Result<(), AllocError>
    requires { n < 1000 }
    ensures { OnOk result (text.new.items ≡ text.old.items ++ thousandths n) }
{
    if n == 0 {
        return Ok(());
    }
    if n % 100 == 0 {
        return text.extend_from_slice(&[b'.', digit(n / 100)]);
    }
    if n % 10 == 0 {
        return text.extend_from_slice(&[b'.', digit(n / 100), digit(n / 10)]);
    }
    text.extend_from_slice(&[b'.', digit(n / 100), digit(n / 10), digit(n)])
}

fn digit(n: u64) -> u8
    ensures { result ≡ digit_of n }
{
    b'0' + (n % 10) as u8
}
