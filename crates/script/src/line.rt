// One line of a script: the call that it asks for.
ghost use Rattle.std.specs.{Prelude.{◌≡◌, ◌<◌, ◌≤◌, ◌==◌, ◌↔◌, IsTrue, ◌++◌, ◌∷◌, [], codes, Some, None, IfSome, OnSome, length, map}, List.{slice_split}};
ghost use Rattle.script.specs.Line.{HasLine, RequestFitsTypes, HasNoFieldsWithoutWord, FoundCallHasWords, FoundStepHasWords, FindsSpelledLine, FindsSpelledStep, line_text, op_word, request_field_words, transfer_words};
ghost use Rattle.ata_types.specs.{declared.call.Call.{Call}, declared.call.Call.TheVariants.{Device, Submit}, declared.request.Op.{Op}, declared.request.Request.{Request}};
ghost use Rattle.adapter.specs.declared.access.DeviceStep.{DeviceStep};

use crate::call_buffer::{CallBuffer, CallPart};
use crate::fields;
use crate::fields::is_text;
use adapter::DeviceStep;
use arrayvec::ArrayVec;
use ata_types::{Call, ClientId, Op, Request, Sector};

/// The words of the longest line.
const MOST_WORDS: usize = 6;

/// One word more, if there is room.
#[inline(always)]
fn push_word<'a>(words: &mut ArrayVec<&'a [u8], MOST_WORDS>, word: &'a [u8]) -> Option<()>
    ensures pushed { OnSome result
        (map (λ w. w.now) words.new.items ≡ map (λ w. w.now) words.old.items ++ word.now ∷ []) }
    ensures full { result ≡ None → length words.old.items ≡ 6 }
{
    words.try_push(word).ok()
}

/// Puts the words of a line, which one space parts, in place of others, if there are no more than a line has.
fn part<'a>(text: &'a [u8], words: &mut ArrayVec<&'a [u8], MOST_WORDS>) -> Option<()>
    ensures parted { OnSome result (map (λ w. w.now) words.new.items ≡ slice_split (λ b. b == 32) text.now) }
    ensures many { result ≡ None → 6 < length (slice_split (λ b. b == 32) text.now) }
{
    words.clear();
    let mut begin = 0;
    for place in 0..text.len() {
        if text[place] == b' ' {
            push_word(words, &text[begin..place])?;
            begin = place + 1;
        }
    }
    push_word(words, &text[begin..])
}

/// Reads the read or write that is asked, from the words after the first, in place of a request.
fn transfer(op: Op, words: &[&[u8]], request: &mut Request) -> Option<()>
    ensures found { OnSome result ((request.new.op ≡ op) × RequestFitsTypes request.new
        × (transfer_words request.new ≡ map (λ w. w.now) words.now)) }
    ensures only { (r : Request) → r.op ≡ op → RequestFitsTypes r → transfer_words r ≡ map (λ w. w.now) words.now
        → (result ≡ Some tt) × (request.new ≡ r) }
{
    match words {
        [client, grant, first, count, frames] => {
            request.client = fields::parse_client(client)?;
            request.grant = fields::parse_number(grant, 255)? as u8;
            request.op = op;
            request.first = Sector(fields::parse_number(first, u64::MAX)?);
            request.count = fields::parse_u32(count)?;
            fields::parse_frames(frames, &mut request.frames)?;
            Some(())
        }
        _ => None,
    }
}

/// The step that has the disk of the port falsify this page: the place, and the bits that are inverted.
fn lie(port: &[u8], page: &[u8], offset: &[u8], bits: &[u8]) -> Option<DeviceStep>
    ensures found { FoundStepHasWords (codes "lie" ∷ port.now ∷ page.now ∷ offset.now ∷ bits.now ∷ []) result }
    ensures only { FindsSpelledStep (codes "lie" ∷ port.now ∷ page.now ∷ offset.now ∷ bits.now ∷ []) result }
{
    let port = fields::parse_port(port)?;
    let page = fields::parse_page(page)?;
    let offset = fields::parse_number(offset, 511)? as u16;
    let bits = fields::parse_hex_byte(bits)?;
    Some(DeviceStep::Lie(port, page, offset, bits))
}

/// The clear that the device is asked for: the slot, and the number of sectors.
fn clear(port: &[u8], slot: &[u8], count: &[u8]) -> Option<DeviceStep>
    ensures found { FoundStepHasWords (codes "clear" ∷ port.now ∷ slot.now ∷ count.now ∷ []) result }
    ensures only { FindsSpelledStep (codes "clear" ∷ port.now ∷ slot.now ∷ count.now ∷ []) result }
{
    let port = fields::parse_port(port)?;
    let slot = fields::parse_slot(slot)?;
    let count = fields::parse_u32(count)?;
    Some(DeviceStep::Clear(port, slot, count))
}

/// The fault with which a command of the device is to end: the slot, and the error.
fn fault(port: &[u8], slot: &[u8], error: &[u8]) -> Option<DeviceStep>
    ensures found { FoundStepHasWords (codes "fault" ∷ port.now ∷ slot.now ∷ error.now ∷ []) result }
    ensures only { FindsSpelledStep (codes "fault" ∷ port.now ∷ slot.now ∷ error.now ∷ []) result }
{
    let port = fields::parse_port(port)?;
    let slot = fields::parse_slot(slot)?;
    let error = fields::parse_hex_byte(error)?;
    Some(DeviceStep::Fault(port, slot, error))
}

/// The same, of one that leaves its disk busy.
fn fault_busy(port: &[u8], slot: &[u8], error: &[u8]) -> Option<DeviceStep>
    ensures found { FoundStepHasWords (codes "faultbusy" ∷ port.now ∷ slot.now ∷ error.now ∷ []) result }
    ensures only { FindsSpelledStep (codes "faultbusy" ∷ port.now ∷ slot.now ∷ error.now ∷ []) result }
{
    let port = fields::parse_port(port)?;
    let slot = fields::parse_slot(slot)?;
    let error = fields::parse_hex_byte(error)?;
    Some(DeviceStep::FaultBusy(port, slot, error))
}

/// The byte that the device is to fill with what it may write.
fn scribble(port: &[u8], byte: &[u8]) -> Option<DeviceStep>
    ensures found { FoundStepHasWords (codes "scribble" ∷ port.now ∷ byte.now ∷ []) result }
    ensures only { FindsSpelledStep (codes "scribble" ∷ port.now ∷ byte.now ∷ []) result }
{
    let port = fields::parse_port(port)?;
    let byte = fields::parse_hex_byte(byte)?;
    Some(DeviceStep::Scribble(port, byte))
}

/// A step with a port, and nothing more.
fn of_port(name: &[u8], port: &[u8]) -> Option<DeviceStep>
    ensures found { FoundStepHasWords (name.now ∷ port.now ∷ []) result }
    ensures only { FindsSpelledStep (name.now ∷ port.now ∷ []) result }
{
    let port = fields::parse_port(port)?;
    if is_text(name, "unplug") {
        return Some(DeviceStep::Unplug(port));
    }
    if is_text(name, "loseplug") {
        return Some(DeviceStep::LosePlug(port));
    }
    if is_text(name, "hold") {
        return Some(DeviceStep::Hold(port));
    }
    if is_text(name, "release") {
        return Some(DeviceStep::Release(port));
    }
    if is_text(name, "truth") {
        return Some(DeviceStep::Truth(port));
    }
    None
}

/// A step with a port and one thing more.
fn of_port_and(name: &[u8], port: &[u8], last: &[u8]) -> Option<DeviceStep>
    ensures found { FoundStepHasWords (name.now ∷ port.now ∷ last.now ∷ []) result }
    ensures only { FindsSpelledStep (name.now ∷ port.now ∷ last.now ∷ []) result }
{
    if is_text(name, "scribble") {
        return scribble(port, last);
    }
    let port = fields::parse_port(port)?;
    if is_text(name, "finish") {
        return Some(DeviceStep::Finish(port, fields::parse_slot(last)?));
    }
    if is_text(name, "fetch") {
        return Some(DeviceStep::Fetch(port, fields::parse_slot(last)?));
    }
    if is_text(name, "move") {
        return Some(DeviceStep::Move(port, fields::parse_slot(last)?));
    }
    if is_text(name, "done") {
        return Some(DeviceStep::Done(port, fields::parse_slot(last)?));
    }
    if is_text(name, "plug") {
        return Some(DeviceStep::Plug(port, fields::parse_disk(last)?));
    }
    if is_text(name, "fatal") {
        return Some(DeviceStep::Fatal(port, fields::parse_fatal_error(last)?));
    }
    None
}

/// A step with a port, a slot and one thing more.
fn of_slot_and(name: &[u8], port: &[u8], slot: &[u8], last: &[u8]) -> Option<DeviceStep>
    ensures found { FoundStepHasWords (name.now ∷ port.now ∷ slot.now ∷ last.now ∷ []) result }
    ensures only { FindsSpelledStep (name.now ∷ port.now ∷ slot.now ∷ last.now ∷ []) result }
{
    if is_text(name, "clear") {
        return clear(port, slot, last);
    }
    if is_text(name, "fault") {
        return fault(port, slot, last);
    }
    if is_text(name, "faultbusy") {
        return fault_busy(port, slot, last);
    }
    None
}

/// A step with a port, a page and two things more.
fn of_page_and(
    name: &[u8],
    port: &[u8],
    page: &[u8],
    offset: &[u8],
    bits: &[u8],
) -> Option<DeviceStep>
    ensures found { FoundStepHasWords (name.now ∷ port.now ∷ page.now ∷ offset.now ∷ bits.now ∷ []) result }
    ensures only { FindsSpelledStep (name.now ∷ port.now ∷ page.now ∷ offset.now ∷ bits.now ∷ []) result }
{
    if is_text(name, "lie") {
        return lie(port, page, offset, bits);
    }
    None
}

/// The step that the device is to do, from its name and the words after it.
fn step(name: &[u8], words: &[&[u8]]) -> Option<DeviceStep>
    ensures found { FoundStepHasWords (name.now ∷ map (λ w. w.now) words.now) result }
    ensures only { FindsSpelledStep (name.now ∷ map (λ w. w.now) words.now) result }
{
    match words {
        [port] => of_port(name, port),
        [port, last] => of_port_and(name, port, last),
        [port, slot, last] => of_slot_and(name, port, slot, last),
        [port, page, offset, bits] => of_page_and(name, port, page, offset, bits),
        _ => None,
    }
}

/// Reads the trim that is asked, from the words after `trim`, in place of a call.
fn trim(
    client: &[u8],
    grant: &[u8],
    first: &[u8],
    count: &[u8],
    call: &mut Call<DeviceStep>,
) -> Option<()>
    ensures found { FoundCallHasWords (codes "trim" ∷ client.now ∷ grant.now ∷ first.now ∷ count.now ∷ []) result
        call.new }
    ensures only { FindsSpelledLine (codes "trim" ∷ client.now ∷ grant.now ∷ first.now ∷ count.now ∷ []) result
        call.new }
{
    let client = fields::parse_client(client)?;
    let grant = fields::parse_number(grant, 255)? as u8;
    let first = Sector(fields::parse_number(first, u64::MAX)?);
    let count = fields::parse_u32(count)?;
    *call = Call::Submit(Request {
        client,
        grant,
        op: Op::Trim,
        first,
        count,
        frames: ArrayVec::new(),
    });
    Some(())
}

/// The same of the flush that is asked, from the words after `flush`. It names no sectors.
fn flush(client: &[u8], grant: &[u8], call: &mut Call<DeviceStep>) -> Option<()>
    ensures found { FoundCallHasWords (codes "flush" ∷ client.now ∷ grant.now ∷ []) result call.new }
    ensures only { FindsSpelledLine (codes "flush" ∷ client.now ∷ grant.now ∷ []) result call.new }
{
    let client = fields::parse_client(client)?;
    let grant = fields::parse_number(grant, 255)? as u8;
    *call = Call::Submit(Request {
        client,
        grant,
        op: Op::Flush,
        first: Sector(0),
        count: 0,
        frames: ArrayVec::new(),
    });
    Some(())
}

/// The same of the store that is asked, from the words after `store`.
fn store(
    client: &[u8],
    frame: &[u8],
    offset: &[u8],
    bytes: &[u8],
    call: &mut Call<DeviceStep>,
) -> Option<()>
    ensures found { FoundCallHasWords (codes "store" ∷ client.now ∷ frame.now ∷ offset.now ∷ bytes.now ∷ []) result
        call.new }
    ensures only { FindsSpelledLine (codes "store" ∷ client.now ∷ frame.now ∷ offset.now ∷ bytes.now ∷ []) result
        call.new }
{
    let client = fields::parse_client(client)?;
    let frame = fields::parse_frame(frame)?;
    let offset = fields::parse_u32(offset)?;
    let bytes = fields::parse_bytes(bytes)?;
    *call = Call::ClientStore {
        client,
        frame,
        offset,
        bytes,
    };
    Some(())
}

/// The same of the load that is asked, from the words after `load`.
fn load(
    client: &[u8],
    frame: &[u8],
    offset: &[u8],
    count: &[u8],
    call: &mut Call<DeviceStep>,
) -> Option<()>
    ensures found { FoundCallHasWords (codes "load" ∷ client.now ∷ frame.now ∷ offset.now ∷ count.now ∷ []) result
        call.new }
    ensures only { FindsSpelledLine (codes "load" ∷ client.now ∷ frame.now ∷ offset.now ∷ count.now ∷ []) result
        call.new }
{
    let client = fields::parse_client(client)?;
    let frame = fields::parse_frame(frame)?;
    let offset = fields::parse_u32(offset)?;
    let count = fields::parse_byte_count(count)?;
    *call = Call::ClientLoad {
        client,
        frame,
        offset,
        length: count,
    };
    Some(())
}

/// The same of the revocation that is asked, from the words after `revoke`.
fn revoke(client: &[u8], grant: &[u8], call: &mut Call<DeviceStep>) -> Option<()>
    ensures found { FoundCallHasWords (codes "revoke" ∷ client.now ∷ grant.now ∷ []) result call.new }
    ensures only { FindsSpelledLine (codes "revoke" ∷ client.now ∷ grant.now ∷ []) result call.new }
{
    let client = fields::parse_client(client)?;
    let grant = fields::parse_number(grant, 255)? as u8;
    *call = Call::Revoke {
        client,
        number: grant,
    };
    Some(())
}

/// Puts a step of the device in place of a call.
#[inline(never)]
fn make_step(call: &mut Call<DeviceStep>, step: DeviceStep)
    ensures { call.new ≡ Device step }
{
    *call = Call::Device(step);
}

/// Reads a step of the device, from the words after `dev`, in place of a call. If the call is a step already, no other
/// call is written first, because that would need room for a request.
#[inline(never)]
fn of_device(words: &[&[u8]], call: &mut Call<DeviceStep>) -> Option<()>
    ensures found { FoundCallHasWords (codes "dev" ∷ map (λ w. w.now) words.now) result call.new }
    ensures only { FindsSpelledLine (codes "dev" ∷ map (λ w. w.now) words.now) result call.new }
{
    let (name, rest) = words.split_first()?;
    let step = step(name, rest)?;
    match call {
        Call::Device(place) => *place = step,
        _ => make_step(call, step),
    }
    Some(())
}

/// A line that is one word. If the call is a service already, none is written over it.
#[inline(never)]
fn of_word(name: &[u8], call: &mut Call<DeviceStep>) -> Option<()>
    ensures found { FoundCallHasWords (name.now ∷ []) result call.new }
    ensures only { FindsSpelledLine (name.now ∷ []) result call.new }
{
    if is_text(name, "service") {
        if !matches!(call, Call::Service) {
            *call = Call::Service;
        }
        return Some(());
    }
    if is_text(name, "tick") {
        *call = Call::Tick;
        return Some(());
    }
    if is_text(name, "reset") {
        *call = Call::Reset;
        return Some(());
    }
    None
}

/// Puts a request in place of a call.
#[inline(never)]
fn make_request(call: &mut Call<DeviceStep>)
    ensures { (r : Request) × (call.new ≡ Submit r) }
{
    *call = Call::Submit(Request {
        client: ClientId(0),
        grant: 0,
        op: Op::Read,
        first: Sector::default(),
        count: 0,
        frames: ArrayVec::new(),
    });
}

/// A read or a write, from the words after its own. A request that is in the place already keeps its room for frames.
#[inline(never)]
fn of_transfer(op: Op, words: &[&[u8]], call: &mut Call<DeviceStep>) -> Option<()>
    requires { (r : Request) → HasNoFieldsWithoutWord op r × (request_field_words op r ≡ transfer_words r) }
    ensures found { FoundCallHasWords (op_word op ∷ map (λ w. w.now) words.now) result call.new }
    ensures only { FindsSpelledLine (op_word op ∷ map (λ w. w.now) words.now) result call.new }
{
    if !matches!(call, Call::Submit(_)) {
        make_request(call);
    }
    match call {
        Call::Submit(request) => transfer(op, words, request),
        _ => None,
    }
}

/// A trim, from the words after `trim`.
#[inline(never)]
fn of_trim(words: &[&[u8]], call: &mut Call<DeviceStep>) -> Option<()>
    ensures found { FoundCallHasWords (codes "trim" ∷ map (λ w. w.now) words.now) result call.new }
    ensures only { FindsSpelledLine (codes "trim" ∷ map (λ w. w.now) words.now) result call.new }
{
    match words {
        [client, grant, first, count] => trim(client, grant, first, count, call),
        _ => None,
    }
}

/// A flush, from the words after `flush`.
#[inline(never)]
fn of_flush(words: &[&[u8]], call: &mut Call<DeviceStep>) -> Option<()>
    ensures found { FoundCallHasWords (codes "flush" ∷ map (λ w. w.now) words.now) result call.new }
    ensures only { FindsSpelledLine (codes "flush" ∷ map (λ w. w.now) words.now) result call.new }
{
    match words {
        [client, grant] => flush(client, grant, call),
        _ => None,
    }
}

/// A store, from the words after `store`.
#[inline(never)]
fn of_store(words: &[&[u8]], call: &mut Call<DeviceStep>) -> Option<()>
    ensures found { FoundCallHasWords (codes "store" ∷ map (λ w. w.now) words.now) result call.new }
    ensures only { FindsSpelledLine (codes "store" ∷ map (λ w. w.now) words.now) result call.new }
{
    match words {
        [client, frame, offset, bytes] => store(client, frame, offset, bytes, call),
        _ => None,
    }
}

/// A load, from the words after `load`.
#[inline(never)]
fn of_load(words: &[&[u8]], call: &mut Call<DeviceStep>) -> Option<()>
    ensures found { FoundCallHasWords (codes "load" ∷ map (λ w. w.now) words.now) result call.new }
    ensures only { FindsSpelledLine (codes "load" ∷ map (λ w. w.now) words.now) result call.new }
{
    match words {
        [client, frame, offset, count] => load(client, frame, offset, count, call),
        _ => None,
    }
}

/// A revocation, from the words after `revoke`.
#[inline(never)]
fn of_revoke(words: &[&[u8]], call: &mut Call<DeviceStep>) -> Option<()>
    ensures found { FoundCallHasWords (codes "revoke" ∷ map (λ w. w.now) words.now) result call.new }
    ensures only { FindsSpelledLine (codes "revoke" ∷ map (λ w. w.now) words.now) result call.new }
{
    match words {
        [client, grant] => revoke(client, grant, call),
        _ => None,
    }
}

/// A port's state, from the words after `state`.
#[inline(never)]
fn of_state(words: &[&[u8]], call: &mut Call<DeviceStep>) -> Option<()>
    ensures found { FoundCallHasWords (codes "state" ∷ map (λ w. w.now) words.now) result call.new }
    ensures only { FindsSpelledLine (codes "state" ∷ map (λ w. w.now) words.now) result call.new }
{
    match words {
        [port] => {
            *call = Call::State(fields::parse_port(port)?);
            Some(())
        }
        _ => None,
    }
}

/// Reads what the first word of a line of more words asks, and those after it, in place of a call. It is no read, no
/// write and no step of the device.
fn parse_other_line(name: &[u8], words: &[&[u8]], call: &mut Call<DeviceStep>) -> Option<()>
    requires name { (name.now ≡ codes "read" → ⊥) × (name.now ≡ codes "write" → ⊥) × (name.now ≡ codes "dev" → ⊥) }
    requires more { 1 ≤ length words.now }
    ensures found { FoundCallHasWords (name.now ∷ map (λ w. w.now) words.now) result call.new }
    ensures only { FindsSpelledLine (name.now ∷ map (λ w. w.now) words.now) result call.new }
{
    if is_text(name, "trim") {
        return of_trim(words, call);
    }
    if is_text(name, "flush") {
        return of_flush(words, call);
    }
    if is_text(name, "store") {
        return of_store(words, call);
    }
    if is_text(name, "load") {
        return of_load(words, call);
    }
    if is_text(name, "revoke") {
        return of_revoke(words, call);
    }
    if is_text(name, "state") {
        return of_state(words, call);
    }
    None
}

/// Reads what a line's first word and those after it ask. Each kind of line has a function of its own, so that what one
/// kind has room for is cleared for that kind alone.
fn asked(name: &[u8], words: &[&[u8]], call: &mut CallBuffer) -> Option<()>
    ensures found { FoundCallHasWords (name.now ∷ map (λ w. w.now) words.now) result call.new }
    ensures only { FindsSpelledLine (name.now ∷ map (λ w. w.now) words.now) result call.new }
{
    call.last = CallPart::Other;
    if words.is_empty() {
        return of_word(name, &mut call.other);
    }
    if is_text(name, "read") {
        call.last = CallPart::Transfer;
        return of_transfer(Op::Read, words, &mut call.transfer);
    }
    if is_text(name, "write") {
        call.last = CallPart::Transfer;
        return of_transfer(Op::Write, words, &mut call.transfer);
    }
    if is_text(name, "dev") {
        call.last = CallPart::Step;
        return of_device(words, &mut call.step);
    }
    parse_other_line(name, words, &mut call.other)
}

/// Reads the call that a line asks for, without its line feed. `None` says that no line is spelled so; what stands in
/// the place then is any call.
#[inline(never)]
pub fn parse_line_into(text: &[u8], call: &mut CallBuffer) -> Option<()>
    ensures found { OnSome result (HasLine call.new × (line_text call.new ≡ text.now)) }
    ensures spelled_call_is_found { (c : Call DeviceStep) → HasLine c → line_text c ≡ text.now → (result ≡ Some tt)
        × (call.new ≡ c) }
{
    let mut words = ArrayVec::new();
    part(text, &mut words)?;
    let (name, rest) = words.as_slice().split_first()?;
    asked(name, rest, call)
}

/// Reads the call that a line asks for, without its line feed. `None` says that no line is spelled so.
pub fn parse_line(text: &[u8]) -> Option<Call<DeviceStep>>
    ensures found { IfSome result (λ call. HasLine call × (line_text call ≡ text.now)) }
    ensures spelled_call_is_found { (c : Call DeviceStep) → HasLine c → line_text c ≡ text.now → result ≡ Some c }
{
    let mut call = CallBuffer::new();
    parse_line_into(text, &mut call)?;
    Some(call.into_call())
}
