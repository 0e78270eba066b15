// A frame: a right and a page, 17 bytes, as a struct by value and back.
ghost use Rattle.model.specs.Definitions.Layout.{frame_size};
ghost use Rattle.model.specs.Definitions.Codec.{encode_frame, decode_frame};

use crate::bytes::{put, read_page, write_page};
use crate::encoded::Encoded;
use crate::widths::{FRAME_BYTES_AT, FRAME_SIZE, RIGHT_AT};
use types::{Frame, Right};

impl Encoded for Frame {
    const SIZE: usize = FRAME_SIZE;

    ghost SIZE = { frame_size };

    ghost encode = { encode_frame };

    ghost decode = { decode_frame };

    fn read(s: &[u8]) -> Frame {
        Frame {
            right: Right::from(s[RIGHT_AT]),
            bytes: read_page(s, FRAME_BYTES_AT),
        }
    }

    fn write(self, s: &mut [u8]) {
        put(s, RIGHT_AT, u8::from(self.right));
        write_page(s, FRAME_BYTES_AT, self.bytes);
    }
}
