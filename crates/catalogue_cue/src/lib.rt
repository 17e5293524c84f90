// Cue sheets: the segment starts of one track, out of a sheet's octets (SCOPE 6). A sheet is gone through twice, so that a refusal has written nothing.
#![tactic(auto)]

ghost use Rattle.std.specs.Prelude.{◌≡◌, MatchOption, true, not, [], ◌∷◌, map, ◌+◌, ◌-◌, ◌<◌, ◌≤◌, length, get_or};
ghost use Rattle.std.proofs.Math.Seq.{paste};
ghost use Rattle.ground.specs.Refusals.{count_said};
ghost use Rattle.ground.specs.Lists.{filled, table_after, all_below};
ghost use Rattle.catalogue_cue.specs.Sheet.{octets, begins, is_digit, digits_at, number_at, hundredths, is_start, start_of, is_other_index, is_passed, line_of, sheet_lines, starts_of, cue_said};
ghost use Rattle.catalogue_cue.specs.Scan.{is_it, is_lf, ahead_end, Passes, CutAt, StartLine, NoStartLine, lines_from, ReadAt, looks_start, AllUnderstood, rises, weighed_of};

use ground::{Reason, Refusal};

// What a line gives (SCOPE 6.5 to 6.8).
#[derive(Clone, Copy)]
pub enum Line {
    Start(u32),
    Passed,
    NotUnderstood,
}

// Where the octets of a line end, and where the next line starts.
#[derive(Clone, Copy)]
struct Cut {
    end: usize,
    next: usize,
}

// What the line at a place gives, and where the next line starts.
#[derive(Clone, Copy)]
struct LineRead {
    line: Line,
    next: usize,
}

// The starts of the lines so far: how many, and the last of them.
#[derive(Clone, Copy)]
struct Starts {
    count: usize,
    last: u32,
}

const MOST_SHEET: usize = 65536;

const LF: u8 = 10;

const CR: u8 = 13;

const SPACE: u8 = b' ';

const COLON: u8 = b':';

// The octets of `INDEX 01 mm:ss:ff`.
const START_OCTETS: usize = 17;

// Whether an octet is x, or is any other.
fn is_it(y: u8, x: u8, equal: bool) -> bool
    ensures { result ≡ is_it x equal y }
{
    if equal {
        return y == x;
    }
    y != x
}

// Goes on, four octets a turn, until an octet is x, or is any other, or until fewer than four are left.
fn by_fours(s: &[u8], at: usize, x: u8, equal: bool) -> usize
    requires { at ≤ length s.now }
    ensures { Passes (is_it x equal) s.now at result }
{
    let mut i = at;
    // Stays a while: the shape of this search was chosen among some dozens by its time (docs/PERFORMANCE.md, "Cue sheets on x86-64").
    while 4 <= s.len() - i {
        if is_it(s[i], x, equal) {
            return i;
        }
        i += 1;
        if is_it(s[i], x, equal) {
            return i;
        }
        i += 1;
        if is_it(s[i], x, equal) {
            return i;
        }
        i += 1;
        if is_it(s[i], x, equal) {
            return i;
        }
        i += 1;
    }
    i
}

// The first place from a place on whose octet is x, or is any other; or the end.
fn first_from(s: &[u8], at: usize, x: u8, equal: bool) -> usize
    requires { at ≤ length s.now }
    ensures { (result ≡ ahead_end (is_it x equal) s.now at) × (result ≤ length s.now) }
{
    let from = by_fours(s, at, x, equal);
    for i in from..s.len() {
        if is_it(s[i], x, equal) {
            return i;
        }
    }
    s.len()
}

// Whether no octet is an LF. The loop is never left early, so that it becomes vector code.
fn no_lf(s: &[u8]) -> bool
    ensures { result ≡ all_below (length s.now) (λ i. not (is_lf (get_or s.now i 0))) }
{
    let mut good = true;
    for octet in s {
        good = good & (*octet != LF);
    }
    good
}

// Goes on, so many octets a turn, while no LF is among them.
fn past_no_lf(sheet: &[u8], at: usize, width: usize) -> usize
    requires at_in_bounds { at ≤ length sheet.now }
    requires width_nonzero { 0 < width }
    ensures { Passes is_lf sheet.now at result }
{
    let mut i = at;
    for piece in sheet[at..].chunks_exact(width) {
        if !no_lf(piece) {
            return i;
        }
        i += width;
    }
    i
}

// The place of the first LF from a place on, or the end of the sheet. It is looked for by long pieces, then by short ones, and then octet by octet.
fn lf_from(sheet: &[u8], at: usize) -> usize
    requires { at ≤ length sheet.now }
    ensures { (result ≡ ahead_end is_lf sheet.now at) × (result ≤ length sheet.now) }
{
    let far = past_no_lf(sheet, at, 64);
    let near = past_no_lf(sheet, far, 8);
    first_from(sheet, near, LF, true)
}

// The line that starts at a place. A CR directly before its LF is none of its octets (SCOPE 6.3).
fn line_at(sheet: &[u8], at: usize) -> Cut
    requires { at ≤ length sheet.now }
    ensures { CutAt sheet.now at result.end result.next }
{
    let lf = lf_from(sheet, at);
    if lf < sheet.len() {
        if at < lf {
            if sheet[lf - 1] == CR {
                return Cut {
                    end: lf - 1,
                    next: lf + 1,
                };
            }
        }
    }
    Cut {
        end: lf,
        next: lf + 1,
    }
}

fn begins_with(line: &[u8], word: &[u8]) -> bool
    ensures { result ≡ begins word.now line.now }
{
    line.starts_with(word)
}

fn is_digit(x: u8) -> bool
    ensures { result ≡ is_digit x }
{
    (b'0' <= x) & (x <= b'9')
}

// The number that a digit is.
fn digit(x: u8) -> u32
    requires { is_digit x ≡ true }
    ensures { (result ≡ x - 48) × (result < 10) }
{
    (x - b'0') as u32
}

fn digits_at(line: &[u8], at: usize) -> bool
    requires { at + 2 ≤ length line.now }
    ensures { result ≡ digits_at line.now at }
{
    is_digit(line[at]) & is_digit(line[at + 1])
}

fn number_at(line: &[u8], at: usize) -> u32
    requires at_in_bounds { at + 2 ≤ length line.now }
    requires at_value { digits_at line.now at ≡ true }
    ensures { (result ≡ number_at line.now at) × (result < 100) }
{
    digit(line[at]) * 10 + digit(line[at + 1])
}

// Whether a line begins with `INDEX 01 `. The tests are joined and none is left out, so that they become one comparison of eight octets.
fn is_index_01(line: &[u8]) -> bool
    requires { 17 ≤ length line.now }
    ensures { result ≡ begins (octets "INDEX 01 ") line.now }
{
    let index = (line[0] == b'I')
        & (line[1] == b'N')
        & (line[2] == b'D')
        & (line[3] == b'E')
        & (line[4] == b'X');
    index & (line[5] == b' ') & (line[6] == b'0') & (line[7] == b'1') & (line[8] == b' ')
}

// Whether a line is `INDEX 01 mm:ss:ff` (SCOPE 6.5).
fn is_start(line: &[u8]) -> bool
    ensures { result ≡ is_start line.now }
{
    if line.len() != START_OCTETS {
        return false;
    }
    if !is_index_01(line) {
        return false;
    }
    let mm = digits_at(line, 9);
    let ss = digits_at(line, 12);
    let ff = digits_at(line, 15);
    if !(mm & (line[11] == COLON) & ss & (line[14] == COLON) & ff) {
        return false;
    }
    let seconds = number_at(line, 12);
    let frames = number_at(line, 15);
    (seconds <= 59) & (frames <= 74)
}

fn hundredths_of(mm: u32, ss: u32, ff: u32) -> u32
    requires { (mm < 100) × (ss < 100) × (ff < 100) }
    ensures { result ≡ hundredths mm ss ff }
{
    (60 * mm + ss) * 100 + 4 * ff / 3
}

// The start that such a line gives (SCOPE 6.6).
fn start_of(line: &[u8]) -> u32
    requires { is_start line.now ≡ true }
    ensures { result ≡ start_of line.now }
{
    let mm = number_at(line, 9);
    let ss = number_at(line, 12);
    let ff = number_at(line, 15);
    hundredths_of(mm, ss, ff)
}

// Whether a line begins with INDEX, one space and two digits other than 01 (SCOPE 6.7).
fn is_other_index(line: &[u8]) -> bool
    ensures { result ≡ is_other_index line.now }
{
    if line.len() < 8 {
        return false;
    }
    let index = begins_with(line, b"INDEX ");
    let digits = digits_at(line, 6);
    if !(index & digits) {
        return false;
    }
    let number = number_at(line, 6);
    number != 1
}

// Whether a line is passed over (SCOPE 6.7). By its first octet at most two of the words are left to try.
fn is_passed(line: &[u8]) -> bool
    ensures { result ≡ is_passed line.now }
{
    let first = ground::octet_or_zero(line, 0);
    match first {
        b'I' => is_other_index(line),
        b'R' => begins_with(line, b"REM"),
        b'T' => begins_with(line, b"TITLE") | begins_with(line, b"TRACK"),
        b'P' => begins_with(line, b"PERFORMER"),
        b'F' => begins_with(line, b"FILE"),
        _ => line.len() == 0,
    }
}

// Where the next line starts, if the line at a place is `INDEX 01 mm:ss:ff` with nothing before it. Its end is known, so no LF is searched for.
fn start_line(sheet: &[u8], at: usize) -> Option<usize>
    requires { at ≤ length sheet.now }
    ensures { MatchOption result (NoStartLine sheet.now at) (λ next. StartLine sheet.now at next) }
{
    if sheet.len() - at < START_OCTETS {
        return None;
    }
    let end = at + START_OCTETS;
    if !is_start(&sheet[at..end]) {
        return None;
    }
    if end == sheet.len() {
        return Some(end + 1);
    }
    if sheet[end] == LF {
        return Some(end + 1);
    }
    if sheet[end] != CR {
        return None;
    }
    if sheet.len() - end < 2 {
        return None;
    }
    if sheet[end + 1] == LF {
        return Some(end + 2);
    }
    None
}

// The line at a place.
fn read_line(sheet: &[u8], at: usize) -> LineRead
    requires { at ≤ length sheet.now }
    ensures { ReadAt sheet.now at result.line result.next }
{
    let from = first_from(sheet, at, SPACE, false);
    if let Some(next) = start_line(sheet, from) {
        let end = from + START_OCTETS;
        let line = Line::Start(start_of(&sheet[from..end]));
        return LineRead {
            line: line,
            next: next,
        };
    }
    let cut = line_at(sheet, from);
    let end = cut.end;
    if is_passed(&sheet[from..end]) {
        return LineRead {
            line: Line::Passed,
            next: cut.next,
        };
    }
    LineRead {
        line: Line::NotUnderstood,
        next: cut.next,
    }
}

// Whether a line that begins at a place and is understood is a start: three octets tell.
fn looks_start(sheet: &[u8], at: usize) -> bool
    requires { at ≤ length sheet.now }
    ensures { result ≡ looks_start sheet.now at }
{
    if sheet.len() - at < START_OCTETS {
        return false;
    }
    (sheet[at] == b'I') & (sheet[at + 6] == b'0') & (sheet[at + 7] == b'1')
}

// The line at a place of a sheet whose lines are understood.
fn skim_line(sheet: &[u8], at: usize) -> LineRead
    requires at_in_bounds { at ≤ length sheet.now }
    requires all_understood { AllUnderstood (map line_of (lines_from sheet.now at)) }
    ensures { ReadAt sheet.now at result.line result.next }
{
    let from = first_from(sheet, at, SPACE, false);
    if looks_start(sheet, from) {
        let end = from + START_OCTETS;
        let line = Line::Start(start_of(&sheet[from..end]));
        let lf = first_from(sheet, end, LF, true);
        return LineRead {
            line: line,
            next: lf + 1,
        };
    }
    let lf = lf_from(sheet, from);
    LineRead {
        line: Line::Passed,
        next: lf + 1,
    }
}

// Whether a start may follow the others (SCOPE 6.9).
fn may_follow(starts: Starts, start: u32) -> bool
    ensures { result ≡ rises starts.count starts.last start }
{
    if starts.count == 0 {
        return start == 0;
    }
    starts.last < start
}

// The starts with those of one line more, or why the line is refused.
fn weigh(line: Line, starts: Starts) -> Result<Starts, Reason>
    requires { starts.count ≤ 65537 }
    ensures { result ≡ weighed_of line starts }
{
    match line {
        Line::Passed => Ok(starts),
        Line::NotUnderstood => Err(Reason::BadLine),
        Line::Start(start) => {
            if !may_follow(starts, start) {
                return Err(Reason::NotRising);
            }
            Ok(Starts {
                count: starts.count + 1,
                last: start,
            })
        }
    }
}

// What reading a sheet into a table of so many words answers (SCOPE 6.10). It writes nothing.
fn survey(sheet: &[u8], room: usize) -> Result<usize, Refusal>
    ensures { count_said result ≡ cue_said sheet.now room }
{
    if MOST_SHEET < sheet.len() {
        return Err(Refusal::from(Reason::LongSheet));
    }
    let mut at: usize = 0;
    let mut number: usize = 1;
    let mut starts = Starts { count: 0, last: 0 };
    // Stays a while: a step is as long as its line, which is known only once the line is read.
    while at <= sheet.len() {
        let read = read_line(sheet, at);
        match weigh(read.line, starts) {
            Ok(next) => starts = next,
            Err(reason) => return Err(reason.at(number)),
        }
        at = read.next;
        number += 1;
    }
    if room < starts.count {
        return Err(Refusal::from(Reason::ManyStarts));
    }
    Ok(starts.count)
}

// Writes the start that a line gives, if it gives one, at the place n, and says which place is the next one then.
fn put(starts: &mut [u32], n: usize, line: Line) -> usize
    requires { n + length (starts_of (line ∷ [])) ≤ length starts.old }
    ensures value { result ≡ n + length (starts_of (line ∷ [])) }
    ensures starts_after { starts.new ≡ paste starts.old n (starts_of (line ∷ [])) (length (starts_of (line ∷ []))) }
{
    match line {
        Line::Start(start) => {
            starts[n] = start;
            n + 1
        }
        Line::Passed => n,
        Line::NotUnderstood => n,
    }
}

// Fills the front of the table with a sheet's starts, and goes no further than the last of them.
fn fill(sheet: &[u8], starts: &mut [u32], count: usize)
    requires count_value { count ≡ length (starts_of (sheet_lines sheet.now)) }
    requires count_in_bounds { count ≤ length starts.old }
    requires all_understood { AllUnderstood (sheet_lines sheet.now) }
    ensures { starts.new ≡ filled (starts_of (sheet_lines sheet.now)) starts.old }
{
    let mut at: usize = 0;
    let mut n: usize = 0;
    // Stays a while: a step is as long as its line, and a line that is passed over fills no place.
    while n < count {
        let read = skim_line(sheet, at);
        let line = read.line;
        n = put(starts, n, line);
        at = read.next;
    }
}

// Reads a cue sheet: fills the front of the table with its starts and answers their number, or refuses and leaves the table as it was.
pub fn read(sheet: &[u8], starts: &mut [u32]) -> Result<usize, Refusal>
    ensures result_value { count_said result ≡ cue_said sheet.now (length starts.old) }
    ensures starts_after { starts.new ≡ table_after (count_said result) (starts_of (sheet_lines sheet.now)) starts.old }
{
    let count = survey(sheet, starts.len())?;
    fill(sheet, starts, count);
    Ok(count)
}
