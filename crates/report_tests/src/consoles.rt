//! Bytes of the console.
ghost use Rattle.std.specs.Prelude.{◌≡◌, None, OnOk};
ghost use Rattle.bus_model.specs.Channels.{bus_setting};

use bus_model::Channel;
use lockstep_model::Machine;
use slack_base::{Ask, Id, OutOfMemory, PostList, Row};
use stat_report::{report_json, report_text};
use std::alloc::Global;
use std::test::Fail;

/// Puts a byte on the console.
fn put(console: &mut Channel, byte: u8, out: &mut PostList) -> Result<(), OutOfMemory>
    requires { bus_setting console.old.value ≡ None }
    ensures { OnOk result (bus_setting console.new.value ≡ None) }
{
    let id = Id {
        cycle: 0,
        core: 0,
        number: 0,
    };
    console.serve(&Ask::Put { id, byte }, out)
}

/// The console with each of the 256 bytes.
fn console_of_all(alloc: Global) -> Result<Channel, OutOfMemory> {
    let mut console = Channel::console(alloc);
    let mut out = PostList::new(alloc);
    for byte in 0..=255 {
        put(&mut console, byte, &mut out)?;
    }
    Ok(console)
}

/// A machine with no core and this channel alone.
fn machine_with(alloc: Global, channel: Channel) -> Result<Machine, OutOfMemory> {
    let mut chans = Row::new(alloc);
    chans.push(channel)?;
    Ok(Machine {
        clock: 9,
        cores: Row::new(alloc),
        chans,
    })
}

/// The report with each of the bytes as it is.
fn text_of_all(alloc: Global) -> Result<Vec<u8>, OutOfMemory> {
    let mut text = Vec::from_slice(alloc, b"cores 0\ncycles 1\nconsole 256\n")?;
    for byte in 0u8..=255 {
        text.push(byte)?;
    }
    text.push(10)?;
    Ok(text)
}

/// The report in JSON, with each of them in hexadecimal.
fn object_of_all(alloc: Global) -> Result<Vec<u8>, OutOfMemory> {
    let mut text = Vec::from_slice(alloc, b"{\"buses\":[],\"console\":\"")?;
    for high in b"0123456789abcdef" {
        for low in b"0123456789abcdef" {
            text.push(*high)?;
            text.push(*low)?;
        }
    }
    text.extend_from_slice(b"\",\"cores\":[],\"cycles\":1}\n")?;
    Ok(text)
}

/// With no core, the last end is cycle 0.
#[test]
fn each_byte(rt: HostRuntime) -> Result<(), Fail> {
    let alloc = rt.alloc();
    let machine = machine_with(alloc, console_of_all(alloc)?)?;
    assert_eq!(rt;
        report_text(alloc, &machine)?.as_slice(),
        text_of_all(alloc)?.as_slice()
    );
    assert_eq!(rt;
        report_json(alloc, &machine)?.as_slice(),
        object_of_all(alloc)?.as_slice()
    );
    Ok(())
}
