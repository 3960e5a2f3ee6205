//! Dots that are blackened, so that the bytes of a raster hold no real-time command: `specs/Blackening.antt` says which.

ghost use Rattle.std.specs.Prelude.{◌≡◌, ◌≤◌};
ghost use Rattle.escpos_command.specs.declared.raster.TheConstants.{HIGHEST};
ghost use Rattle.escpos_image.specs.Blackening.{blackened, safe_dots};

use escpos_real_time::is_real_time;

/// Blackens a dot in each byte that would end a real-time command, where the bytes are the dots of a raster of so many rows.
pub fn blacken(rows: usize, dots: &mut Vec<u8>)
    requires { rows ≤ HIGHEST }
    ensures { dots.new.items ≡ safe_dots rows dots.old.items }
{
    let mut first = (rows % 256) as u8;
    let mut second = (rows / 256) as u8;
    for k in 0..dots.len() {
        let byte = blackened(first, second, dots[k]);
        dots[k] = byte;
        first = second;
        second = byte;
    }
}

// A byte that comes after these two.
fn blackened(first: u8, second: u8, byte: u8) -> u8
    ensures { result ≡ blackened first second byte }
{
    if is_real_time(first, second, byte) {
        byte + 16
    } else {
        byte
    }
}
