// A chooser and the fields of a reading, as bytes of a lent part.
ghost use Rattle.std.specs.Prelude.{◌≡◌};
ghost use Rattle.bptc_block.specs.Answers.{reading_of};
ghost use Rattle.bc7_c.specs.Parts.{chooser_bytes, chooser_in, head_bytes, field_bytes};

use block::Reading;
use chooser::Chooser;

// The chooser in a part.
pub(crate) fn chooser_in(part: &[u8; 68]) -> Chooser
    ensures { result ≡ chooser_in part.now }
{
    let mut pixels = [0u8; 48];
    let mut block = [0u8; 16];
    let mut error = [0u8; 4];
    pixels.copy_from_slice(&part[0..48]);
    block.copy_from_slice(&part[48..64]);
    error.copy_from_slice(&part[64..68]);
    Chooser {
        pixels,
        block,
        error: u32::from_le_bytes(error),
    }
}

// A chooser into a part.
pub(crate) fn write_chooser(chooser: Chooser, part: &mut [u8; 68])
    ensures { part.new ≡ chooser_bytes chooser }
{
    part[0..48].copy_from_slice(&chooser.pixels);
    part[48..64].copy_from_slice(&chooser.block);
    part[64..68].copy_from_slice(&chooser.error.to_le_bytes());
}

// The fields of a reading before its indices.
fn head(reading: Reading) -> [u8; 15]
    ensures { result ≡ head_bytes (reading_of reading.mode reading.fields) }
{
    let fields = reading.fields;
    let [e0, e1, e2, e3] = fields.ends;
    [
        reading.mode,
        fields.partition,
        e0.r,
        e0.g,
        e0.b,
        e1.r,
        e1.g,
        e1.b,
        e2.r,
        e2.g,
        e2.b,
        e3.r,
        e3.g,
        e3.b,
        fields.p,
    ]
}

// The fields of a reading into a part.
pub(crate) fn write_fields(reading: Reading, part: &mut [u8; 31])
    ensures { part.new ≡ field_bytes (reading_of reading.mode reading.fields) }
{
    part[0..15].copy_from_slice(&head(reading));
    part[15..31].copy_from_slice(&reading.fields.indices);
}
