//! Listings worked by hand.
ghost use Rattle.std.specs.Prelude.{◌≡◌, ◌+◌, ◌^◌, ◌<◌, IfOk, length};
ghost use Rattle.slack_base.specs.declared.images.Segment.{Segment};

use slack_base::{ByteList, Image, OutOfMemory, Segment, SegmentList};
use stat_report::listing;
use std::alloc::Global;
use std::test::Fail;

/// A segment of these bytes and of four more, which no file gives.
fn segment(alloc: Global, address: u32, bytes: &[u8]) -> Result<Segment, OutOfMemory>
    requires { address + length bytes.now + 4 < 2 ^ 32 }
    ensures { IfOk result (λ s. s ≡ record { address = address; bytes = bytes.now; size = length bytes.now + 4 }) }
{
    Ok(Segment {
        address,
        bytes: ByteList::of(Vec::from_slice(alloc, bytes)?),
        size: bytes.len() as u32 + 4,
    })
}

/// A word that is no instruction, and `lui x8, 1`.
const HIGH: &[u8] = &[0xff, 0xff, 0xff, 0xff, 0x37, 0x14, 0, 0];

/// Two bytes before the first word, an `ecall`, and three bytes behind it.
const LOW: &[u8] = &[1, 2, 0x73, 0, 0, 0, 3, 4, 5];

/// The listing of two segments, of which the one with the higher addresses comes first.
fn listing_of_two(alloc: Global) -> Result<ByteList, OutOfMemory> {
    let mut segments = SegmentList::new(alloc);
    segments.push(segment(alloc, 0xabc0, HIGH)?)?;
    segments.push(segment(alloc, 0x1002, LOW)?)?;
    let image = Image {
        entry: 0x1004,
        segments,
    };
    listing(alloc, &image)
}

#[test]
fn lists_words_in_the_order_of_addresses(rt: HostRuntime) -> Result<(), Fail> {
    assert_eq!(rt;
        listing_of_two(rt.alloc())?.as_slice(),
        b"00001004 00000073 ecall\n0000abc0 ffffffff .word\n0000abc4 00001437 lui x8, 1\n".as_slice()
    );
    Ok(())
}
