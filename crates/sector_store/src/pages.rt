// The pages by which a disk says what it is, and which queued command failed.
ghost use Rattle.std.specs.Prelude.{◌≡◌, ◌<◌, ◌≤◌, ◌%◌, All, length, sum};
ghost use Rattle.sector_store.specs.{Pages.{IsLogPage, IsIdentifyPage, IsIdentifyWord, character, logged_error_byte, logged_status, logged_tag, data_set_management_word, deterministic_trim_word}, Stores.{IsSectorBytes}};

/// What a disk says of DATA SET MANAGEMENT with TRIM.
#[derive(Clone, Copy, Debug, Default, PartialEq, Eq)]
pub enum Trim {
    /// It has the command, and promises that what it trims reads as zeros afterwards.
    #[default]
    Full,
    /// It has the command, and promises no zeros.
    Weak,
    /// It lacks the command.
    Without,
}

/// What a disk can do, as its page says.
#[derive(Clone, Copy, Debug, PartialEq, Eq)]
pub struct Abilities {
    /// Whether it knows queued commands.
    pub ncq: bool,
    /// How many queued commands it takes at once: 1 to 32.
    pub depth: u8,
    pub trim: Trim,
}

/// A queued command that failed.
#[derive(Clone, Copy, Debug, PartialEq, Eq)]
pub struct LoggedError {
    /// Its slot.
    pub tag: u8,
    /// The error that it ended with.
    pub error: u8,
}

/// NQ: the log names no queued command.
const NONE_QUEUED: u8 = 0x80;

/// The status of a command that failed: DRDY and ERR.
const FAILED_STATUS: u8 = 0x41;

impl Trim {
    /// The word that tells of zeros after a trim (word 69).
    fn support(self) -> u16
        ensures { result ≡ deterministic_trim_word self }
    {
        match self {
            Trim::Full => 0x4020,
            Trim::Weak => 0x4000,
            Trim::Without => 0,
        }
    }

    /// The words that tell of blocks of ranges and of the function (words 105 and 169).
    fn function(self) -> u16
        ensures { result ≡ data_set_management_word self }
    {
        match self {
            Trim::Full | Trim::Weak => 1,
            Trim::Without => 0,
        }
    }
}

/// How many words there are up to the last one that isn't zero on every page, but for the very last.
const FILLED_WORDS: usize = 170;

/// A character of a text that is filled with spaces.
fn character_at(text: &[u8], place: usize) -> u8
    ensures { result ≡ character text.now place }
{
    if place < text.len() {
        text[place]
    } else {
        b' '
    }
}

/// A word of the page, but for the last.
fn word_at(number: usize, serial: &[u8], sectors: u64, abilities: Abilities) -> u16
    ensures { IsIdentifyWord serial.now sectors abilities number result }
{
    match number {
        10..20 => {
            let place = 2 * (number - 10);
            256 * u16::from(character_at(serial, place))
                + u16::from(character_at(serial, place + 1))
        }
        69 => abilities.trim.support(),
        75 => u16::from(abilities.depth.saturating_sub(1)),
        76 => if abilities.ncq { 0x100 } else { 0 },
        83 => 0x6400,
        100 => (sectors % 65536) as u16,
        101 => ((sectors >> 16) % 65536) as u16,
        102 => ((sectors >> 32) % 65536) as u16,
        103 => (sectors >> 48) as u16,
        105 | 169 => abilities.trim.function(),
        106 => 0x4000,
        _ => 0,
    }
}

/// The sum of the bytes, modulo 256.
fn sum_of(page: &[u8]) -> u8
    ensures total { result ≡ sum page.now % 256 }
    ensures bytes { All (λ byte. byte < 256) page.now }
{
    let mut total = 0u8;
    for byte in page {
        total = total.wrapping_add(*byte);
    }
    total
}

/// The page that IDENTIFY DEVICE brings from a disk with this serial number, so many sectors and these abilities
/// (ACS-3, 7.12.7; which words it fills is this project's own). The serial number is filled with spaces.
pub fn identify_page(serial: &[u8], sectors: u64, abilities: Abilities) -> [u8; 512]
    requires { length serial.now ≤ 20 }
    ensures page { IsIdentifyPage serial.now sectors abilities result }
    ensures bytes { IsSectorBytes result }
{
    let mut page = [0; 512];
    for number in 0..FILLED_WORDS {
        let word = word_at(number, serial, sectors, abilities);
        page[2 * number] = (word % 256) as u8;
        page[2 * number + 1] = (word / 256) as u8;
    }
    page[510] = 0xa5;
    page[511] = 0u8.wrapping_sub(sum_of(&page));
    page
}

/// Byte 0 of the log: NQ, or the tag of the command that failed.
fn log_tag(failed: Option<LoggedError>) -> u8
    ensures { result ≡ logged_tag failed }
{
    match failed {
        Some(failed) => failed.tag,
        None => NONE_QUEUED,
    }
}

/// Its status there, in byte 2.
fn log_status(failed: Option<LoggedError>) -> u8
    ensures { result ≡ logged_status failed }
{
    if failed.is_some() { FAILED_STATUS } else { 0 }
}

/// Its error there, in byte 3.
fn log_error(failed: Option<LoggedError>) -> u8
    ensures { result ≡ logged_error_byte failed }
{
    match failed {
        Some(failed) => failed.error,
        None => 0,
    }
}

/// The page that READ LOG EXT brings of log 10h (ACS-3, A.14): it names the queued command that failed, or none.
pub fn log_page(failed: Option<LoggedError>) -> [u8; 512]
    ensures page { IsLogPage failed result }
    ensures bytes { IsSectorBytes result }
{
    let mut log = [0; 512];
    log[0] = log_tag(failed);
    log[2] = log_status(failed);
    log[3] = log_error(failed);
    log[511] = 0u8.wrapping_sub(sum_of(&log));
    log
}
