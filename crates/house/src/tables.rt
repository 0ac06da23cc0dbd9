// The house codes as constant tables of 32-bit words, bit b of word c being bit b of check c.
ghost use Rattle.std.specs.Prelude.{◌≡◌, ◌<◌};
ghost use Rattle.parity.specs.House.{table_word};
ghost use Rattle.house.specs.Names.{code};

use crate::Name;
use parity::Check;

// The circulant: case L.
const CIRCULANT: [u32; 23] = [
    0x0000_149f,
    0x0000_293e,
    0x0000_527c,
    0x0000_a4f8,
    0x0001_49f0,
    0x0002_93e0,
    0x0005_27c0,
    0x000a_4f80,
    0x0014_9f00,
    0x0029_3e00,
    0x0052_7c00,
    0x0024_f801,
    0x0049_f002,
    0x0013_e005,
    0x0027_c00a,
    0x004f_8014,
    0x001f_0029,
    0x003e_0052,
    0x007c_00a4,
    0x0078_0149,
    0x0070_0293,
    0x0060_0527,
    0x0040_0a4f,
];

// The Hamming checks for length 3.
const HAMMING_3: [u32; 2] = [0x0000_0005, 0x0000_0006];

// The Hamming checks for length 7.
const HAMMING_7: [u32; 3] = [0x0000_0055, 0x0000_0066, 0x0000_0078];

// The Hamming checks for length 15.
const HAMMING_15: [u32; 4] = [0x0000_5555, 0x0000_6666, 0x0000_7878, 0x0000_7f80];

// The Hamming checks for length 31.
const HAMMING_31: [u32; 5] = [
    0x5555_5555,
    0x6666_6666,
    0x7878_7878,
    0x7f80_7f80,
    0x7fff_8000,
];

// The word of a check in the table of a name.
pub fn word(name: Name, check: Check) -> u32
    requires { check.0 < (code name).m }
    ensures { result ≡ table_word 32 (code name).matrix check.0 }
{
    let c = check.0;
    match name {
        Name::Circulant => CIRCULANT[c],
        Name::Hamming3 => HAMMING_3[c],
        Name::Hamming7 => HAMMING_7[c],
        Name::Hamming15 => HAMMING_15[c],
        Name::Hamming31 => HAMMING_31[c],
    }
}
