// Numbers as the figures of codes.
ghost use Rattle.std.specs.Prelude.{◌≡◌, ◌<◌};
ghost use Rattle.tx_plan.specs.Numbers.{three_figures};

/// The text of a number, with a zero before each figure that it lacks.
pub fn three_figures(number: usize) -> [u8; 3]
    requires { number < 1000 }
    ensures { result ≡ three_figures number }
{
    [
        b'0' + (number / 100) as u8,
        b'0' + (number / 10 % 10) as u8,
        b'0' + (number % 10) as u8,
    ]
}
