// The fields of a line: words that spell values, each value in one way.
ghost use Rattle.std.specs.{Prelude.{◌≡◌, ◌<◌, ◌≤◌, ◌+◌, ◌++◌, ◌↔◌, ℕ, ◌∷◌, [], Some, None, IsTrue, IfSome, OnSome, length, map}, List.{All}, Fmt.{decimal}};
ghost use Rattle.arrayvec.specs.ArrayVec.{ArrayVec as Items};
ghost use Rattle.hex.specs.Hex.{encode_lower};
ghost use Rattle.script.specs.{FieldWords.{fatal_word, frames_word}, Line.{page_word}};
ghost use Rattle.adapter.specs.{declared.access.DiskPage.{DiskPage}, declared.access.FatalError.{FatalError}};

use adapter::{DiskNumber, DiskPage, FatalError};
use arrayvec::ArrayVec;
use ata_types::{ClientId, Frame, MOST_CALL_BYTES, MOST_REQUEST_FRAMES, Port, Slot};

/// Whether a word is this text. Words are short, so that a look at each byte is the least that it takes.
#[inline(always)]
pub(crate) fn is_text(word: &[u8], text: &str) -> bool
    ensures { IsTrue result ↔ word.now ≡ text.now }
{
    let text = text.as_bytes();
    if word.len() != text.len() {
        return false;
    }
    for place in 0..word.len() {
        if word[place] != text[place] {
            return false;
        }
    }
    true
}

/// The digit that a byte is.
fn digit(byte: u8) -> Option<u64>
    ensures found { IfSome result (λ d. (d < 10) × (byte ≡ 48 + d)) }
    ensures only { (d : ℕ) → d < 10 → byte ≡ 48 + d → result ≡ Some d }
{
    match byte {
        b'0'..=b'9' => Some(u64::from(byte - b'0')),
        _ => None,
    }
}

/// A number up to the last one allowed, in decimal digits without needless zeros.
pub(crate) fn parse_number(word: &[u8], last: u64) -> Option<u64>
    ensures spelled { IfSome result (λ n. (n ≤ last) × (decimal n ≡ word.now)) }
    ensures spelled_value_is_found { (n : ℕ) → n ≤ last → decimal n ≡ word.now → result ≡ Some n }
{
    let (first, rest) = word.split_first()?;
    let mut number = digit(*first)?;
    for byte in rest {
        if number == 0 {
            return None;
        }
        number = number.checked_mul(10)?.checked_add(digit(*byte)?)?;
    }
    if number > last {
        return None;
    }
    Some(number)
}

/// A client's number: 0 to 255.
pub(crate) fn parse_client(word: &[u8]) -> Option<ClientId>
    ensures spelled { IfSome result (λ c. (c.0 < 256) × (decimal c.0 ≡ word.now)) }
    ensures spelled_value_is_found { (c : ClientId) → c.0 < 256 → decimal c.0 ≡ word.now → result ≡ Some c }
{
    Some(ClientId(parse_number(word, 255)? as u8))
}

/// A number of 32 bits.
pub(crate) fn parse_u32(word: &[u8]) -> Option<u32>
    ensures spelled { IfSome result (λ n. (n < 4294967296) × (decimal n ≡ word.now)) }
    ensures spelled_value_is_found { (n : ℕ) → n < 4294967296 → decimal n ≡ word.now → result ≡ Some n }
{
    Some(parse_number(word, 0xffff_ffff)? as u32)
}

/// How many bytes are loaded: 1 to `MOST_CALL_BYTES`.
pub(crate) fn parse_byte_count(word: &[u8]) -> Option<u32>
    ensures spelled { IfSome result (λ n. (1 ≤ n) × (n ≤ MOST_CALL_BYTES) × (decimal n ≡ word.now)) }
    ensures spelled_value_is_found { (n : ℕ) → 1 ≤ n → n ≤ MOST_CALL_BYTES → decimal n ≡ word.now → result ≡ Some n }
{
    let count = parse_number(word, MOST_CALL_BYTES as u64)? as u32;
    if count == 0 {
        return None;
    }
    Some(count)
}

/// A frame's number: 0 to 65,535.
pub(crate) fn parse_frame(word: &[u8]) -> Option<Frame>
    ensures spelled { IfSome result (λ f. (f.0 < 65536) × (decimal f.0 ≡ word.now)) }
    ensures spelled_value_is_found { (f : Frame) → f.0 < 65536 → decimal f.0 ≡ word.now → result ≡ Some f }
{
    Some(Frame(parse_number(word, 65_535)? as u16))
}

/// A port's number: 0 to 3.
pub(crate) fn parse_port(word: &[u8]) -> Option<Port>
    ensures spelled { IfSome result (λ p. (p.0 < 4) × (decimal p.0 ≡ word.now)) }
    ensures spelled_value_is_found { (p : Port) → p.0 < 4 → decimal p.0 ≡ word.now → result ≡ Some p }
{
    Some(Port(parse_number(word, 3)? as u8))
}

/// A slot's number: 0 to 31.
pub(crate) fn parse_slot(word: &[u8]) -> Option<Slot>
    ensures spelled { IfSome result (λ s. (s.0 < 32) × (decimal s.0 ≡ word.now)) }
    ensures spelled_value_is_found { (s : Slot) → s.0 < 32 → decimal s.0 ≡ word.now → result ≡ Some s }
{
    Some(Slot(parse_number(word, 31)? as u8))
}

/// A disk's number: 0 or 1.
pub(crate) fn parse_disk(word: &[u8]) -> Option<DiskNumber>
    ensures spelled { IfSome result (λ d. (d.0 < 2) × (decimal d.0 ≡ word.now)) }
    ensures spelled_value_is_found { (d : DiskNumber) → d.0 < 2 → decimal d.0 ≡ word.now → result ≡ Some d }
{
    Some(DiskNumber(parse_number(word, 1)? as u8))
}

/// A fatal error, by the name of its bit of PxIS: `ifs` or `hbfs`.
pub(crate) fn parse_fatal_error(word: &[u8]) -> Option<FatalError>
    ensures spelled { IfSome result (λ e. fatal_word e ≡ word.now) }
    ensures spelled_value_is_found { (e : FatalError) → fatal_word e ≡ word.now → result ≡ Some e }
{
    match str::from_utf8(word).ok()? {
        "ifs" => Some(FatalError::Interface),
        "hbfs" => Some(FatalError::HostBus),
        _ => None,
    }
}

/// A page of a disk: `id` or `log`.
pub(crate) fn parse_page(word: &[u8]) -> Option<DiskPage>
    ensures spelled { IfSome result (λ p. page_word p ≡ word.now) }
    ensures spelled_value_is_found { (p : DiskPage) → page_word p ≡ word.now → result ≡ Some p }
{
    match str::from_utf8(word).ok()? {
        "id" => Some(DiskPage::Identity),
        "log" => Some(DiskPage::Log),
        _ => None,
    }
}

/// One frame more, by its number, if there is room.
fn push_frame(word: &[u8], frames: &mut ArrayVec<Frame, MOST_REQUEST_FRAMES>) -> Option<()>
    ensures pushed { OnSome result ((f : Frame) × (f.0 < 65536) × (decimal f.0 ≡ word.now)
        × (frames.new.items ≡ frames.old.items ++ f ∷ [])) }
    ensures full { result ≡ None → (f : Frame) → f.0 < 65536 → decimal f.0 ≡ word.now
        → length frames.old.items ≡ MOST_REQUEST_FRAMES }
    ensures few { OnSome result (length frames.new.items ≤ MOST_REQUEST_FRAMES) }
{
    frames.try_push(parse_frame(word)?).ok()
}

/// Reads frames by their numbers, at most 128, separated by commas, in place of those that are there. `-` means none.
pub(crate) fn parse_frames(
    word: &[u8],
    frames: &mut ArrayVec<Frame, MOST_REQUEST_FRAMES>,
) -> Option<()>
    ensures spelled { OnSome result (All (λ f. f.0 < 65536) frames.new.items
        × (frames_word frames.new.items ≡ word.now)) }
    ensures at_most_128_frames { OnSome result (length frames.new.items ≤ MOST_REQUEST_FRAMES) }
    ensures spelled_value_is_found { (v : Items Frame) → All (λ f. f.0 < 65536) v.items
        → length v.items ≤ MOST_REQUEST_FRAMES
        → frames_word v.items ≡ word.now → (result ≡ Some tt) × (frames.new ≡ v) }
{
    frames.clear();
    if is_text(word, "-") {
        return Some(());
    }
    let mut begin = 0;
    for place in 0..word.len() {
        if word[place] == b',' {
            push_frame(&word[begin..place], frames)?;
            begin = place + 1;
        }
    }
    push_frame(&word[begin..], frames)?;
    Some(())
}

/// 1 to `MOST_CALL_BYTES` bytes, each as two lower-case hexadecimal digits.
pub(crate) fn parse_bytes(word: &[u8]) -> Option<ArrayVec<u8, MOST_CALL_BYTES>>
    ensures spelled { IfSome result (λ v. (1 ≤ length v.items) × (encode_lower v.items ≡ word.now)) }
    ensures count_is_allowed { IfSome result (λ v. length v.items ≤ MOST_CALL_BYTES) }
    ensures bytes { IfSome result (λ v. All (λ b. b < 256) v.items) }
    ensures spelled_value_is_found { (v : Items ℕ) → All (λ b. b < 256) v.items → 1 ≤ length v.items
        → length v.items ≤ MOST_CALL_BYTES
        → encode_lower v.items ≡ word.now → result ≡ Some v }
{
    let length = word.len() / 2;
    let mut read = [0u8; MOST_CALL_BYTES];
    let mut spelled = [0u8; 2 * MOST_CALL_BYTES];
    let bytes = read.get_mut(..length)?;
    hex::decode_to_slice(word, bytes).ok()?;
    let digits = spelled.get_mut(..2 * length)?;
    hex::encode_to_slice(&*bytes, digits).ok()?;
    if bytes.is_empty() || &*digits != word {
        return None;
    }
    let mut found = ArrayVec::new();
    found.try_extend_from_slice(bytes).ok()?;
    Some(found)
}

/// One byte, as two lower-case hexadecimal digits.
pub(crate) fn parse_hex_byte(word: &[u8]) -> Option<u8>
    ensures spelled { IfSome result (λ b. (b < 256) × (encode_lower (b ∷ []) ≡ word.now)) }
    ensures spelled_value_is_found { (b : ℕ) → b < 256 → encode_lower (b ∷ []) ≡ word.now → result ≡ Some b }
{
    match parse_bytes(word)?.as_slice() {
        [byte] => Some(*byte),
        _ => None,
    }
}
