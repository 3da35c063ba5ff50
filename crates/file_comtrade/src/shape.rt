//! How samples are written.

ghost use Rattle.std.specs.Prelude.{◌≡◌, ◌<◌, ◌^◌};
ghost use Rattle.file_comtrade.specs.RawSample.{analog_bytes, sample_bytes};

use crate::config::Form;

/// How samples are written.
#[derive(Clone, Copy)]
pub struct Shape {
    pub analog: u32,
    pub digital: u32,
    pub form: Form,
}

pub fn analog_bytes(form: Form, n: u32) -> usize
    ensures value { result ≡ analog_bytes form n }
    ensures small { result < 2 ^ 34 }
{
    match form {
        Form::Ascii => 0,
        Form::Binary => 2 * n as usize,
        Form::Binary32 | Form::Float32 => 4 * n as usize,
    }
}

/// How many bytes a sample takes.
pub fn sample_bytes(shape: Shape) -> usize
    ensures value { result ≡ sample_bytes shape }
    ensures small { result < 2 ^ 36 }
{
    8 + analog_bytes(shape.form, shape.analog) + 2 * ((shape.digital as usize + 15) / 16)
}
