//! Channels, each gone through step by step.
ghost use Rattle.std.specs.Prelude.{◌≡◌, ◌<◌, None, IfOk, IfSome, IsTrue, OnOk};
ghost use Rattle.slack_base.specs.Images.{Fits};
ghost use Rattle.slack_base.specs.Numbers.{numbers_of};
ghost use Rattle.bus_model.specs.Asks.{IsAskAt, IsAskOf, IsLineAt, IsLineOf};
ghost use Rattle.bus_model.specs.Channels.{bus_setting};
ghost use Rattle.bus_model.specs.Settings.{setting_of};
ghost use Rattle.bus_tests.specs.Playing.{IsPlayed, setting_at};

use crate::courses::{COURSES, REPEATS};
use crate::exchanges::Exchange;
use crate::requests::{Request, Short, View, are_posts, ask_of, id_at, is_view};
use bus_model::{Channel, channel_of};
use slack_base::{
    Ask, ByteList, Config, Id, Image, OutOfMemory, PostList, RawConfig, Segment, SegmentList, TOP,
};
use std::alloc::Global;
use std::test::Fail;

/// What is done with a channel, or what it says.
pub(crate) enum Step {
    /// It is asked these, one after another, and each time the posts come that are written there.
    Asks(&'static [Exchange]),
    Close,
    Mark,
    Undo,
    Keep,
    /// What an ask clashes with.
    Clash(Short, Request, Option<Short>),
    /// The entry of a line.
    Entry(u32, View),
    /// How many asks and retries were counted, and from when on the channel is free.
    Counts(u64, u64, u64),
    /// The number of the bus, and how many lines it has.
    Lines(Option<u32>, u32),
    /// How many lines were noted since the mark.
    Noted(u64),
    /// The bytes on the console.
    Bytes(&'static [u8]),
}

/// Steps on the bus of a number of a machine, or on its console.
pub(crate) struct Course {
    pub(crate) name: &'static str,
    pub(crate) numbers: RawConfig,
    pub(crate) bus: Option<u32>,
    pub(crate) steps: &'static [Step],
}

/// Asks on the bus of a number, how many asks and retries it counted after them, and from when on it is free.
pub(crate) struct Repeat {
    pub(crate) name: &'static str,
    pub(crate) numbers: RawConfig,
    pub(crate) bus: u32,
    pub(crate) exchanges: &'static [Exchange],
    pub(crate) counts: (u64, u64, u64),
}

/// Whether an ask is of the bus of a number.
fn is_of(index: u32, config: &Config, ask: &Ask) -> bool
    ensures { IsTrue result → IsAskOf (setting_of (numbers_of config.now) index) ask.now }
{
    let id = ask.id();
    let Some(line) = ask.line() else {
        return false;
    };
    if config.buses == 0 || line % config.buses != index || line >= config.memory / 16 {
        return false;
    }
    id.core < config.cores && id.cycle <= TOP
}

/// Whether the channel may be asked: the console anything, and a bus what is of it.
fn may_serve(bus: Option<u32>, config: &Config, ask: &Ask) -> bool
    ensures { IsTrue result → IsAskAt (setting_at (numbers_of config.now) bus) ask.now }
{
    match bus {
        Some(index) => is_of(index, config, ask),
        None => true,
    }
}

/// Serves an ask, and says whether it may be asked there and these posts came of it.
fn sends(
    channel: &mut Channel,
    bus: Option<u32>,
    config: &Config,
    exchange: &Exchange,
    out: &mut PostList,
) -> Result<bool, OutOfMemory>
    requires { bus_setting channel.old.value ≡ setting_at (numbers_of config.now) bus }
    ensures setting { OnOk result (bus_setting channel.new.value ≡ bus_setting channel.old.value) }
    ensures saved { channel.new.saved ≡ channel.old.saved }
{
    let (short, request, posts) = exchange;
    let ask = ask_of(id_at(short), request);
    if !may_serve(bus, config, &ask) {
        return Ok(false);
    }
    out.clear();
    channel.serve(&ask, out)?;
    Ok(are_posts(out.as_slice(), &ask, *posts))
}

/// Serves asks one after another, and says whether each time the posts came that are written beside them.
fn all_send(
    channel: &mut Channel,
    bus: Option<u32>,
    config: &Config,
    exchanges: &[Exchange],
    out: &mut PostList,
) -> Result<bool, OutOfMemory>
    requires { bus_setting channel.old.value ≡ setting_at (numbers_of config.now) bus }
    ensures setting { OnOk result (bus_setting channel.new.value ≡ bus_setting channel.old.value) }
    ensures saved { channel.new.saved ≡ channel.old.saved }
{
    for exchange in exchanges {
        if !sends(channel, bus, config, exchange, out)? {
            return Ok(false);
        }
    }
    Ok(true)
}

/// Whether an ask may be asked there, and clashes with this.
fn clashes(
    channel: &Channel,
    bus: Option<u32>,
    config: &Config,
    ask: &Ask,
    wanted: Option<Id>,
) -> bool
    requires { bus_setting channel.now.value ≡ setting_at (numbers_of config.now) bus }
{
    may_serve(bus, config, ask) && channel.clash(ask) == wanted
}

/// Whether a line is one of the bus of a number.
fn is_line_of(index: u32, config: &Config, line: u32) -> bool
    ensures { IsTrue result → IsLineOf (setting_of (numbers_of config.now) index) line }
{
    config.buses != 0 && line % config.buses == index && line < config.memory / 16
}

/// Whether the channel is a bus that has a line.
fn has_line(bus: Option<u32>, config: &Config, line: u32) -> bool
    ensures { IsTrue result → IsLineAt (setting_at (numbers_of config.now) bus) line }
{
    match bus {
        Some(index) => is_line_of(index, config, line),
        None => false,
    }
}

/// Whether this is the entry of a line, however it is looked up.
fn has_entry(channel: &Channel, bus: Option<u32>, config: &Config, line: u32, wanted: &View) -> bool
    requires { bus_setting channel.now.value ≡ setting_at (numbers_of config.now) bus }
{
    if !has_line(bus, config, line) {
        return false;
    }
    let entry = channel.entry(line);
    is_view(&entry, wanted) && channel.find_entry(line) == Some(entry)
}

/// How many asks and retries were counted, and from when on the channel is free.
fn counts(channel: &Channel) -> (u64, u64, u64) {
    (channel.asks(), channel.retries(), channel.free())
}

/// Whether the channel says what a step says of it.
fn says(channel: &Channel, marked: bool, bus: Option<u32>, config: &Config, step: &Step) -> bool
    requires { IsPlayed (setting_at (numbers_of config.now) bus) marked channel.now }
{
    match step {
        Step::Clash(short, request, wanted) => {
            let ask = ask_of(id_at(short), request);
            clashes(channel, bus, config, &ask, wanted.as_ref().map(id_at))
        }
        Step::Entry(line, wanted) => has_entry(channel, bus, config, *line, wanted),
        Step::Counts(asks, retries, free) => counts(channel) == (*asks, *retries, *free),
        Step::Lines(number, lines) => channel.number() == *number && channel.lines() == *lines,
        Step::Noted(count) => marked && channel.noted() == *count,
        Step::Bytes(bytes) => channel.console_bytes() == *bytes,
        _ => false,
    }
}

/// Takes a step, and says whether it came out as is written there. The flag says whether the channel is marked.
fn steps(
    channel: &mut Channel,
    marked: &mut bool,
    bus: Option<u32>,
    config: &Config,
    step: &Step,
    out: &mut PostList,
) -> Result<bool, OutOfMemory>
    requires { IsPlayed (setting_at (numbers_of config.now) bus) marked.old channel.old }
    ensures { OnOk result (IsPlayed (setting_at (numbers_of config.now) bus) marked.new channel.new) }
{
    match step {
        Step::Asks(exchanges) => return all_send(channel, bus, config, *exchanges, out),
        Step::Close => channel.close(),
        Step::Mark => {
            channel.mark()?;
            *marked = true;
        }
        Step::Undo => {
            channel.undo();
            *marked = false;
        }
        Step::Keep => {
            channel.keep();
            *marked = false;
        }
        _ => return Ok(says(channel, *marked, bus, config, step)),
    }
    Ok(true)
}

/// The place of the first step that doesn't come out as is written there.
fn first_wrong(
    channel: &mut Channel,
    bus: Option<u32>,
    config: &Config,
    course: &[Step],
    out: &mut PostList,
) -> Result<Option<usize>, OutOfMemory>
    requires setting { bus_setting channel.old.value ≡ setting_at (numbers_of config.now) bus }
    requires unmarked { channel.old.saved ≡ None }
{
    let mut marked = false;
    for (place, step) in course.iter().enumerate() {
        if !steps(channel, &mut marked, bus, config, step, out)? {
            return Ok(Some(place));
        }
    }
    Ok(None)
}

/// An image of two segments, one at line 256, and one that is the last line of memory.
fn image(alloc: Global) -> Result<Image, OutOfMemory>
    ensures { IfOk result (λ image. Fits 0 8192 image) }
{
    let bytes = ByteList::of(vec![in alloc; 1u8, 2, 3, 4, 5]?);
    let segment = Segment {
        address: 4096,
        bytes,
        size: 16,
    };
    let mut segments = SegmentList::new(alloc);
    segments.push(segment)?;
    let bytes = ByteList::of(vec![in alloc;
        0xefu8, 0xbe, 0xad, 0xde, 255, 255, 255, 255, 0, 0, 0, 0x80, 4, 3, 2, 1,
    ]?);
    let last = Segment {
        address: 8176,
        bytes,
        size: 16,
    };
    segments.push(last)?;
    Ok(Image { entry: 0, segments })
}

/// The bus of a number before the first cycle, where the machine has it and has a memory of 512 lines from 0 on.
fn bus_at(alloc: Global, index: u32, config: &Config) -> Result<Option<Channel>, OutOfMemory>
    ensures setting { IfOk result (λ found. IfSome found (λ c. bus_setting c.value ≡ setting_at (numbers_of config.now) (Some index))) }
    ensures unmarked { IfOk result (λ found. IfSome found (λ c. c.saved ≡ None)) }
{
    if index >= config.buses || config.base != 0 || config.memory != 8192 {
        return Ok(None);
    }
    let image = image(alloc)?;
    let channel = Channel::bus(alloc, index, config, &image)?;
    Ok(Some(channel))
}

/// The channel of a course before the first cycle.
fn channel_at(
    alloc: Global,
    bus: Option<u32>,
    config: &Config,
) -> Result<Option<Channel>, OutOfMemory>
    ensures setting { IfOk result (λ found. IfSome found (λ c. bus_setting c.value ≡ setting_at (numbers_of config.now) bus)) }
    ensures unmarked { IfOk result (λ found. IfSome found (λ c. c.saved ≡ None)) }
{
    match bus {
        Some(index) => bus_at(alloc, index, config),
        None => Ok(Some(Channel::console(alloc))),
    }
}

/// The place of the first step of a course that doesn't come out as is written there.
fn wrong_in(alloc: Global, config: &Config, course: &Course) -> Result<Option<usize>, OutOfMemory> {
    let bus = course.bus;
    let Some(mut channel) = channel_at(alloc, bus, config)? else {
        return Ok(Some(0));
    };
    let mut out = PostList::new(alloc);
    first_wrong(&mut channel, bus, config, course.steps, &mut out)
}

#[test]
fn courses_of_channels(rt: HostRuntime) -> Result<(), Fail> {
    for course in &COURSES {
        let name = course.name;
        let config = Config::checked(course.numbers).expect(&rt, name);
        assert_eq!(rt; wrong_in(rt.alloc(), &config, course)?, None, "{name}");
    }
    Ok(())
}

/// Whether a bus that is marked after so many asks, and taken back after the rest of them, makes of the rest what it made
/// of them before.
fn comes_back(
    bus: &mut Channel,
    index: u32,
    config: &Config,
    exchanges: &[Exchange],
    count: usize,
    out: &mut PostList,
) -> Result<bool, OutOfMemory>
    requires { bus_setting bus.old.value ≡ setting_at (numbers_of config.now) (Some index) }
{
    let (some, rest) = exchanges.split_at(count.min(exchanges.len()));
    let begun = all_send(bus, Some(index), config, some, out)?;
    bus.mark()?;
    let first = all_send(bus, Some(index), config, rest, out)?;
    bus.undo();
    let again = all_send(bus, Some(index), config, rest, out)?;
    Ok(begun && first && again)
}

/// Whether a bus comes back to a mark after so many asks, and counts at the end what it counts without.
fn is_repeated(
    alloc: Global,
    config: &Config,
    repeat: &Repeat,
    count: usize,
) -> Result<bool, OutOfMemory> {
    let index = repeat.bus;
    let Some(mut bus) = bus_at(alloc, index, config)? else {
        return Ok(false);
    };
    let mut out = PostList::new(alloc);
    let same = comes_back(&mut bus, index, config, repeat.exchanges, count, &mut out)?;
    bus.close();
    Ok(same && counts(&bus) == repeat.counts)
}

/// Wherever a bus is marked among some asks.
#[test]
fn a_bus_is_as_it_was(rt: HostRuntime) -> Result<(), Fail> {
    for repeat in &REPEATS {
        let name = repeat.name;
        let config = Config::checked(repeat.numbers).expect(&rt, name);
        for count in 0..=8 {
            assert!(rt;
                is_repeated(rt.alloc(), &config, repeat, count)?,
                "{name}, {count}"
            );
        }
    }
    Ok(())
}

/// The channel of an ask, where there are so many buses.
fn channel_among(request: &Request, buses: u32) -> Option<u32> {
    if buses == 0 {
        return None;
    }
    Some(channel_of(&ask_of(id_at(&(0, 0, 0)), request), buses))
}

/// What is asked, of how many buses, and the channel that it is of.
const ROUTES: [(Request, u32, u32); 8] = [
    (Request::Read(510), 1, 0),
    (Request::ReadOwn(257), 1, 0),
    (Request::Read(510), 2, 0),
    (Request::ReadOwn(257), 2, 1),
    (Request::Read(510), 4, 2),
    (Request::ReadOwn(257), 4, 1),
    (Request::Put(65), 1, 1),
    (Request::Put(65), 4, 4),
];

/// Lines go round the buses, and bytes go to the channel behind them.
#[test]
fn channels_of_asks(rt: HostRuntime) {
    for (request, buses, wanted) in &ROUTES {
        assert_eq!(rt;
            channel_among(request, *buses),
            Some(*wanted),
            "{buses} buses"
        );
    }
}
