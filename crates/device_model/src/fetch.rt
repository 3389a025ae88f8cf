// What the bytes of a slot mean, read as the device reads them. Bytes past the end of the memory are zeros.
ghost use Rattle.std.specs.Prelude.{Bool, ◌≡◌, ◌<◌, ◌≤◌, ◌+◌, ◌*◌, ◌^◌, ◌%◌, ℕ, List, [], true, false, None, Some, All, IfSome, IsTrue, ◌↔◌, length, slice_index};
ghost use Rattle.adapter.specs.{Commands.{IsValidMeaning, Meaning, command_of, command_with_fields, sends_page}, Memory.{bytes_at}, Decoding.{HasPrds, IsWholePieces, DecodesTo, pieces}, declared.command.Command.{Command}, Encoding.{AreZero, EncodesCommand, EncodesHeader, EncodesPrd}};
ghost use Rattle.byteorder.specs.Endian.{little_from};
ghost use Rattle.device_model.specs.{FetchedBytes.{HaveSamePiecesAsStoredPrds, IsNewlyTaken, bytes_of}, PortView.{taken_of}};

use crate::port::TakenCommand;
use crate::prds::PrdTable;
use adapter::{Operation, Prd};
use ata_types::{
    DATA_SET_MANAGEMENT, FLUSH_CACHE_EXT, HEADER_BYTES, IDENTIFY_DEVICE, MOST_REQUEST_FRAMES,
    READ_DMA_EXT, READ_FPDMA_QUEUED, READ_LOG_EXT, TABLE_ALIGNMENT, TABLE_HEAD_BYTES,
    WRITE_DMA_EXT, WRITE_FPDMA_QUEUED,
};
use byteorder::{ByteOrder, LittleEndian};
use fis::are_zero;

/// The log of queued commands' errors (ACS-3, A.14).
const ERROR_LOG: u8 = 0x10;

/// What a command header says: how many PRDs there are, and where the command table is.
#[derive(Clone, Copy, Debug)]
struct Header {
    entries: u16,
    table: u32,
}

/// The sectors that a FIS names.
#[derive(Clone, Copy, Debug)]
struct Sectors {
    first: u64,
    count: u32,
}

/// Copies bytes of memory, of which some are past its end. It stands for itself, since its callers would copy all bytes
/// one by one else.
#[inline(never)]
fn copy_end(memory: &[u8], at: usize, out: &mut [u8])
    requires { at + length out.old < 2 ^ 64 }
    ensures { out.new ≡ bytes_at (bytes_of memory.now) at (length out.old) }
{
    for i in 0..out.len() {
        let place = at + i;
        out[i] = if place < memory.len() {
            memory[place]
        } else {
            0
        };
    }
}

/// Copies bytes of memory.
pub fn copy_bytes(memory: &[u8], at: usize, out: &mut [u8])
    requires { at + length out.old < 2 ^ 64 }
    ensures { out.new ≡ bytes_at (bytes_of memory.now) at (length out.old) }
{
    match memory.get(at..at + out.len()) {
        Some(part) => out.copy_from_slice(part),
        None => copy_end(memory, at, out),
    }
}

/// The header that the bytes are, if they are one of a command that reads memory, or doesn't: the W bit tells (AHCI
/// 1.3.1, 4.2.2).
fn decode_header(bytes: &[u8], writes: bool) -> Option<Header>
    requires { length bytes.now ≡ 32 }
    ensures found { IfSome result (λ h. EncodesHeader bytes.now writes h.entries h.table) }
    ensures only { (h : Header) → EncodesHeader bytes.now writes h.entries h.table → result ≡ Some h }
{
    let first = if writes { 0x45 } else { 0x05 };
    let table = LittleEndian::read_u32(&bytes[8..]);
    if LittleEndian::read_u16(bytes) != first
        || table % TABLE_ALIGNMENT != 0
        || !are_zero(bytes, 12, 32)
    {
        return None;
    }
    Some(Header {
        entries: LittleEndian::read_u16(&bytes[2..]),
        table,
    })
}

/// The LBA that a FIS names.
fn lba_of(bytes: &[u8]) -> u64
    requires { length bytes.now ≡ 20 }
    ensures { result ≡ little_from 4 3 bytes.now + 2 ^ 24 * little_from 8 3 bytes.now }
{
    u64::from(LittleEndian::read_u24(&bytes[4..]))
        + (u64::from(LittleEndian::read_u24(&bytes[8..])) << 24)
}

/// The number of sectors that a count register means.
fn sectors_of(register: u16) -> u32
    ensures meant { result % 65536 ≡ register }
    ensures range { (1 ≤ result) × (result ≤ 65536) }
{
    if register == 0 {
        65536
    } else {
        u32::from(register)
    }
}

/// Whether the bytes are a FIS with this code whose LBA is that of a sector: kind and C bit, code and device are right,
/// and its last bytes zero.
fn is_ranged_fis(bytes: &[u8], code: u8) -> bool
    requires { length bytes.now ≡ 20 }
    ensures { IsTrue result ↔ ((slice_index bytes.now 0 ≡ 0x27) × (slice_index bytes.now 1 ≡ 0x80)
        × (slice_index bytes.now 2 ≡ code) × (slice_index bytes.now 7 ≡ 0x40) × AreZero bytes.now 14 20) }
{
    bytes[0] == 0x27
        && bytes[1] == 0x80
        && bytes[2] == code
        && bytes[7] == 0x40
        && are_zero(bytes, 14, 20)
}

/// The sectors that the bytes name, if they are the FIS of a plain command with this code that names some.
fn decode_range(bytes: &[u8], code: u8) -> Option<Sectors>
    requires { length bytes.now ≡ 20 }
    ensures found { IfSome result (λ s. EncodesCommand bytes.now
        (command_with_fields code 0 (s.count % 65536) s.first 0x40)) }
    ensures range { IfSome result (λ s. (1 ≤ s.count) × (s.count ≤ 65536) × (s.first < 2 ^ 48)) }
    ensures only { (s : Sectors) → 1 ≤ s.count → s.count ≤ 65536
        → EncodesCommand bytes.now (command_with_fields code 0 (s.count % 65536) s.first 0x40) → result ≡ Some s }
{
    if !is_ranged_fis(bytes, code) || bytes[3] != 0 || bytes[11] != 0 {
        return None;
    }
    Some(Sectors {
        first: lba_of(bytes),
        count: sectors_of(LittleEndian::read_u16(&bytes[12..])),
    })
}

/// The sectors that the bytes name, if they are the FIS of a queued command with this code and this tag: the features
/// count its sectors.
fn decode_queued(bytes: &[u8], code: u8, tag: u8) -> Option<Sectors>
    requires size { length bytes.now ≡ 20 }
    requires tag { tag < 32 }
    ensures found { IfSome result
        (λ s. EncodesCommand bytes.now (command_with_fields code (s.count % 65536) (8 * tag) s.first 0x40)) }
    ensures range { IfSome result (λ s. (1 ≤ s.count) × (s.count ≤ 65536) × (s.first < 2 ^ 48)) }
    ensures only { (s : Sectors) → 1 ≤ s.count → s.count ≤ 65536
        → EncodesCommand bytes.now (command_with_fields code (s.count % 65536) (8 * tag) s.first 0x40) → result
        ≡ Some s }
{
    if !is_ranged_fis(bytes, code) || bytes[12] != 8 * tag || bytes[13] != 0 {
        return None;
    }
    Some(Sectors {
        first: lba_of(bytes),
        count: sectors_of(u16::from(bytes[3]) + 256 * u16::from(bytes[11])),
    })
}

/// The sectors that the bytes name, none, if they are the FIS of a command with this code, and with this number as
/// features and as count.
fn decode_bare(bytes: &[u8], code: u8, number: u8) -> Option<Sectors>
    requires { length bytes.now ≡ 20 }
    ensures found { IfSome result (λ s. EncodesCommand bytes.now (command_with_fields code number number 0 0x00)
        × (s.first ≡ 0)
        × (s.count ≡ 0)) }
    ensures only { (s : Sectors) → s.first ≡ 0 → s.count ≡ 0
        → EncodesCommand bytes.now (command_with_fields code number number 0 0x00) → result ≡ Some s }
{
    if bytes[0] == 0x27
        && bytes[1] == 0x80
        && bytes[2] == code
        && bytes[3] == number
        && are_zero(bytes, 4, 12)
        && bytes[12] == number
        && are_zero(bytes, 13, 20)
    {
        Some(Sectors { first: 0, count: 0 })
    } else {
        None
    }
}

/// The sectors that the bytes name, none, if they are the FIS of READ LOG EXT of one page, the first of log 10h.
fn decode_log(bytes: &[u8]) -> Option<Sectors>
    requires { length bytes.now ≡ 20 }
    ensures found { IfSome result (λ s. EncodesCommand bytes.now (command_with_fields 0x2f 0 1 0x10 0x00)
        × (s.first ≡ 0)
        × (s.count ≡ 0)) }
    ensures only { (s : Sectors) → s.first ≡ 0 → s.count ≡ 0 → EncodesCommand bytes.now
        (command_with_fields 0x2f 0 1 0x10 0x00)
        → result ≡ Some s }
{
    if bytes[0] == 0x27
        && bytes[1] == 0x80
        && bytes[2] == READ_LOG_EXT
        && bytes[3] == 0
        && bytes[4] == ERROR_LOG
        && are_zero(bytes, 5, 12)
        && bytes[12] == 1
        && are_zero(bytes, 13, 20)
    {
        Some(Sectors { first: 0, count: 0 })
    } else {
        None
    }
}

/// The sectors that the bytes name, if they are the FIS of such a command in this slot; none where it names none.
fn decode_sectors(bytes: &[u8], slot: u8, operation: Operation) -> Option<Sectors>
    requires size { length bytes.now ≡ 20 }
    requires slot { slot < 32 }
    ensures found { IfSome result
        (λ s. EncodesCommand bytes.now (command_of operation slot s.first s.count)) }
    ensures meant { IfSome result
        (λ s. IsValidMeaning
        (record { operation = operation; first = s.first; count = s.count })) }
    ensures only { (s : Sectors)
        → IsValidMeaning (record { operation = operation; first = s.first; count = s.count }) →
        EncodesCommand bytes.now (command_of operation slot s.first s.count) → result ≡ Some s }
{
    match operation {
        Operation::Read => decode_range(bytes, READ_DMA_EXT),
        Operation::Write => decode_range(bytes, WRITE_DMA_EXT),
        Operation::ReadQueued => decode_queued(bytes, READ_FPDMA_QUEUED, slot),
        Operation::WriteQueued => decode_queued(bytes, WRITE_FPDMA_QUEUED, slot),
        Operation::Identify => decode_bare(bytes, IDENTIFY_DEVICE, 0),
        Operation::Flush => decode_bare(bytes, FLUSH_CACHE_EXT, 0),
        Operation::Trim => decode_bare(bytes, DATA_SET_MANAGEMENT, 1),
        Operation::ReadLog => decode_log(bytes),
    }
}

/// The PRD that the bytes are, if they are one of a whole number of pieces.
fn decode_prd(bytes: &[u8]) -> Option<Prd>
    requires { length bytes.now ≡ 16 }
    ensures found { IfSome result (λ e. EncodesPrd bytes.now e × IsWholePieces e) }
    ensures only { (e : Prd) → EncodesPrd bytes.now e → IsWholePieces e → result ≡ Some e }
{
    let address = LittleEndian::read_u32(bytes);
    let count = LittleEndian::read_u32(&bytes[12..]);
    if LittleEndian::read_u64(&bytes[4..]) != 0 || address % 2 != 0 || count >= 1 << 22 {
        return None;
    }
    if (count + 1) % 512 != 0 {
        return None;
    }
    Some(Prd {
        address,
        bytes: count + 1,
    })
}

/// The bytes of a command header, from its address on.
fn header_bytes(memory: &[u8], at: usize) -> [u8; 32]
    requires { at < 2 ^ 33 }
    ensures { result ≡ bytes_at (bytes_of memory.now) at HEADER_BYTES }
{
    let mut bytes = [0; 32];
    copy_bytes(memory, at, &mut bytes);
    bytes
}

/// The bytes of the FIS of the command table to which a header's bytes point.
fn command_fis_bytes(memory: &[u8], header: &[u8; 32]) -> [u8; 20]
    ensures { result ≡ bytes_at (bytes_of memory.now) (little_from 8 4 header.now) 20 }
{
    let mut bytes = [0; 20];
    copy_bytes(
        memory,
        LittleEndian::read_u32(&header[8..]) as usize,
        &mut bytes,
    );
    bytes
}

/// The PRD at an address, if there is one of a whole number of pieces.
fn prd_at(memory: &[u8], at: usize) -> Option<Prd>
    requires { at < 2 ^ 33 }
    ensures found { IfSome result (λ e. EncodesPrd (bytes_at (bytes_of memory.now) at 16) e × IsWholePieces e) }
    ensures only { (e : Prd) → EncodesPrd (bytes_at (bytes_of memory.now) at 16) e → IsWholePieces e → result ≡ Some e }
{
    let mut bytes = [0; 16];
    copy_bytes(memory, at, &mut bytes);
    decode_prd(&bytes)
}

/// Reads so many PRDs of whole pieces from an address on; `false` says that they don't stand there.
fn read_prds(memory: &[u8], at: usize, number: usize, prds: &mut PrdTable) -> bool
    requires low { at < 2 ^ 32 + TABLE_HEAD_BYTES }
    requires few { number ≤ MOST_REQUEST_FRAMES }
    requires empty { prds.old ≡ [] }
    ensures found { result ≡ true → HaveSamePiecesAsStoredPrds (bytes_of memory.now) at number prds.new }
    ensures only { result ≡ false → (es : List Prd) → length es ≡ number → HasPrds (bytes_of memory.now) at es
        → All IsWholePieces es → ⊥ }
{
    for i in 0..number {
        let Some(prd) = prd_at(memory, at + 16 * i) else {
            return false;
        };
        prds.push(prd);
    }
    true
}

/// How many pieces PRDs have.
pub fn count_pieces(prds: &[Prd]) -> u32
    requires { length prds.now ≤ MOST_REQUEST_FRAMES }
    ensures { result ≡ length (pieces prds.now) }
{
    let mut count = 0;
    for prd in prds {
        count += prd.bytes / 512;
    }
    count
}

/// Where a piece goes to or comes from.
#[derive(Clone, Copy, Debug)]
pub struct PiecePlace {
    pub address: u64,
    /// How many pieces stand behind it in its region.
    pub pieces_following: u32,
}

/// The place of a piece, if PRDs have so many. It stands for itself, since it goes over PRDs: callers that look for a
/// place once for many sectors would have that in their code else.
#[inline(never)]
pub fn place_at(prds: &[Prd], number: u32) -> Option<PiecePlace>
    requires { length prds.now ≤ MOST_REQUEST_FRAMES }
    ensures found { IfSome result (λ place. (number < length (pieces prds.now))
        × (place.address ≡ slice_index (pieces prds.now) number)) }
    ensures pieces_follow { IfSome result (λ place. (k : ℕ) → k ≤ place.pieces_following
        → (number + k < length (pieces prds.now))
        × (slice_index (pieces prds.now) (number + k) ≡ place.address + 512 * k)) }
    ensures room { IfSome result (λ place. number + place.pieces_following + 1 < 2 ^ 32) }
    ensures address_in_range { IfSome result (λ place. place.address < 2 ^ 33) }
    ensures none { result ≡ None → length (pieces prds.now) ≤ number }
{
    let mut left = number;
    for prd in prds {
        let here = prd.bytes / 512;
        if left < here {
            return Some(PiecePlace {
                address: u64::from(prd.address) + 512 * u64::from(left),
                pieces_following: here - left - 1,
            });
        }
        left -= here;
    }
    None
}

/// The address of a piece, if PRDs have so many.
pub fn piece_address_at(prds: &[Prd], number: u32) -> Option<u64>
    requires { length prds.now ≤ MOST_REQUEST_FRAMES }
    ensures found { IfSome result (λ address. (number < length (pieces prds.now))
        × (address ≡ slice_index (pieces prds.now) number)) }
    ensures room { IfSome result (λ _. number + 1 < 2 ^ 32) }
    ensures address_in_range { IfSome result (λ address. address < 2 ^ 33) }
    ensures none { result ≡ None → length (pieces prds.now) ≤ number }
{
    let place = place_at(prds, number)?;
    Some(place.address)
}

/// Reads the command that a slot says by these bytes of its header and its FIS, and by its PRDs; `false` says that it
/// is none of such a kind. It is read into its room, so that it isn't copied.
fn decode_command(
    memory: &[u8],
    header: &[u8; 32],
    fis: &[u8; 20],
    slot: u8,
    operation: Operation,
    command: &mut TakenCommand,
) -> bool
    requires slot { slot < 32 }
    requires fis { fis.now ≡ bytes_at (bytes_of memory.now) (little_from 8 4 header.now) 20 }
    requires empty { command.old.prds ≡ [] }
    ensures found { result ≡ true → IsNewlyTaken command.new
        × ((list : ℕ) → header.now ≡ bytes_at (bytes_of memory.now) (list + HEADER_BYTES * slot) HEADER_BYTES →
        DecodesTo (bytes_of memory.now) list slot (taken_of command.new).meaning (taken_of command.new).places) }
    ensures operation { result ≡ true → command.new.operation ≡ operation }
    ensures only { result ≡ false → (list : ℕ)
        → header.now ≡ bytes_at (bytes_of memory.now) (list + HEADER_BYTES * slot) HEADER_BYTES →
        (m : Meaning) (places : List ℕ) → m.operation ≡ operation
        → DecodesTo (bytes_of memory.now) list slot m places → ⊥ }
{
    let Some(header) = decode_header(header, operation.reads_memory()) else {
        return false;
    };
    let Some(sectors) = decode_sectors(fis, slot, operation) else {
        return false;
    };
    let entries = usize::from(header.entries);
    let table = header.table as usize;
    if entries > MOST_REQUEST_FRAMES
        || !read_prds(
            memory,
            table + TABLE_HEAD_BYTES as usize,
            entries,
            &mut command.prds,
        )
    {
        return false;
    }
    if count_pieces(command.prds.as_slice()) != operation.transfer_sector_count(sectors.count) {
        return false;
    }
    command.operation = operation;
    command.first = sectors.first;
    command.count = sectors.count;
    command.moved = 0;
    command.block = None;
    command.cleared = 0;
    true
}

/// Whether the bytes of a slot may say a command that sends a page: `false` where their code is another one's. No more
/// than the code is looked at, since slots are before each reading of a register.
pub fn may_be_page_command(memory: &[u8], list: u32, slot: u8) -> bool
    requires { slot < 32 }
    ensures { result ≡ false → (m : Meaning) (places : List ℕ) → sends_page m.operation ≡ true
        → DecodesTo (bytes_of memory.now) list slot m places → ⊥ }
{
    let header = header_bytes(memory, header_place(list, slot));
    let fis = command_fis_bytes(memory, &header);
    match operation_of_code(fis[2]) {
        Some(operation) => operation.sends_page(),
        None => false,
    }
}

/// The command that the bytes of a slot say, if it is one that sends a page: its code tells.
pub fn decode_page_command(memory: &[u8], list: u32, slot: u8) -> Option<TakenCommand>
    requires { slot < 32 }
    ensures found { IfSome result (λ t. IsNewlyTaken t × DecodesTo (bytes_of memory.now) list slot (taken_of t).meaning
        (taken_of t).places) }
    ensures operation { IfSome result (λ t. sends_page t.operation ≡ true) }
    ensures complete { result ≡ None → (m : Meaning) (places : List ℕ) → sends_page m.operation ≡ true
        → DecodesTo (bytes_of memory.now) list slot m places → ⊥ }
{
    let header = header_bytes(memory, header_place(list, slot));
    let fis = command_fis_bytes(memory, &header);
    let operation = operation_of_code(fis[2])?;
    if !operation.sends_page() {
        return None;
    }
    let mut command = TakenCommand::room();
    if decode_command(memory, &header, &fis, slot, operation, &mut command) {
        Some(command)
    } else {
        None
    }
}

/// The address of a slot's header in a command list.
fn header_place(list: u32, slot: u8) -> usize
    requires { slot < 32 }
    ensures { result ≡ list + HEADER_BYTES * slot }
{
    list as usize + HEADER_BYTES as usize * usize::from(slot)
}

/// The operation that has this code (ACS-3, 7).
fn operation_of_code(code: u8) -> Option<Operation>
    ensures { (operation : Operation) (slot first count : ℕ)
        → (command_of operation slot first count).code
        ≡ code → result ≡ Some operation }
{
    match code {
        READ_DMA_EXT => Some(Operation::Read),
        WRITE_DMA_EXT => Some(Operation::Write),
        READ_FPDMA_QUEUED => Some(Operation::ReadQueued),
        WRITE_FPDMA_QUEUED => Some(Operation::WriteQueued),
        IDENTIFY_DEVICE => Some(Operation::Identify),
        FLUSH_CACHE_EXT => Some(Operation::Flush),
        DATA_SET_MANAGEMENT => Some(Operation::Trim),
        READ_LOG_EXT => Some(Operation::ReadLog),
        _ => None,
    }
}

/// Reads the command that the bytes of a slot say, into its room; `false` says that it is none that the model takes.
/// Its code tells which, so that it is read once.
pub fn decode_into(memory: &[u8], list: u32, slot: u8, command: &mut TakenCommand) -> bool
    requires slot { slot < 32 }
    requires empty { command.old.prds ≡ [] }
    ensures found { result ≡ true → IsNewlyTaken command.new
        × DecodesTo (bytes_of memory.now) list slot (taken_of command.new).meaning (taken_of command.new).places }
    ensures complete { result ≡ false → (m : Meaning) (places : List ℕ)
        → DecodesTo (bytes_of memory.now) list slot m places
        → ⊥ }
{
    let header = header_bytes(memory, header_place(list, slot));
    let fis = command_fis_bytes(memory, &header);
    match operation_of_code(fis[2]) {
        Some(operation) => decode_command(memory, &header, &fis, slot, operation, command),
        None => false,
    }
}

/// The command that the bytes of a slot say, if it is one that the model takes.
pub fn read_command(memory: &[u8], list: u32, slot: u8) -> Option<TakenCommand>
    requires { slot < 32 }
    ensures found { IfSome result (λ t. IsNewlyTaken t × DecodesTo (bytes_of memory.now) list slot (taken_of t).meaning
        (taken_of t).places) }
    ensures complete { result ≡ None → (m : Meaning) (places : List ℕ)
        → DecodesTo (bytes_of memory.now) list slot m places
        → ⊥ }
{
    let mut command = TakenCommand::room();
    if decode_into(memory, list, slot, &mut command) {
        Some(command)
    } else {
        None
    }
}

/// Whether the bytes of a slot say a command.
pub fn decodes_command(memory: &[u8], list: u32, slot: u8) -> bool
    requires { slot < 32 }
    ensures bytes_mean_command { result ≡ true → (m : Meaning) × (places : List ℕ)
        × DecodesTo (bytes_of memory.now) list slot m places }
    ensures bytes_mean_none { result ≡ false → (m : Meaning) (places : List ℕ)
        → DecodesTo (bytes_of memory.now) list slot m places
        → ⊥ }
{
    let mut command = TakenCommand::room();
    decode_into(memory, list, slot, &mut command)
}
