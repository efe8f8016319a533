//! The forms of the words.
ghost use Rattle.std.specs.Prelude.{◌≡◌, ◌∷◌, [], map, string_bytes, option_map, true, false, Some, None, MatchOption};
ghost use Rattle.std.specs.Str.Parse.{digits_value};
ghost use Rattle.std.specs.Char.{is_ascii_digit};
ghost use Rattle.std.specs.List.{list_all};
ghost use Rattle.command_words.specs.Words.{asked, job_of as job_of_words, is_file as is_file_text, leads_well as leads_well_text, is_whole as is_whole_text, is_in, is_player, is_end as is_end_text, play as play_texts, check as check_texts, drill as drill_texts, serve as serve_texts, verify as verify_texts, compare as compare_texts, play_words as play_list, check_words as check_list, drill_words as drill_list, serve_words as serve_list, verify_words as verify_list, compare_words as compare_list};

/// What the words ask for.
#[derive(Clone, Copy, Debug, PartialEq, Eq)]
pub enum Job<'a> {
    /// Play the script on the campaign of the file. With `end` the campaign is written at the end.
    Play {
        file: &'a str,
        end: bool,
    },
    /// Check the campaign of the file.
    Check {
        file: &'a str,
    },
    /// Make the drill of this number, and play so many lines of it.
    Drill {
        number: u32,
        lines: u32,
    },
    /// Serve the campaign of the file at this port to so many connections. With `end` the campaign is
    /// written at the end.
    Serve {
        file: &'a str,
        port: u16,
        count: u32,
        end: bool,
    },
    /// Check the transcript of a player's seat, 1 to 32, against the script that is played on the campaign.
    Verify {
        file: &'a str,
        script: &'a str,
        seat: u8,
        transcript: &'a str,
    },
    /// Compare what a player's seat, 1 to 32, may know of two scripts that are played each on its campaign.
    Compare {
        file: &'a str,
        script: &'a str,
        file2: &'a str,
        script2: &'a str,
        seat: u8,
    },
}

pub(crate) fn is_file(name: &str) -> bool
    ensures { result ≡ is_file_text name.now }
{
    match name.as_bytes() {
        [] => false,
        [first, ..] => *first != b'-',
    }
}

pub(crate) fn is_end(word: &str) -> bool
    ensures { result ≡ is_end_text word.now }
{
    word == "--end"
}

fn are_digits(text: &[u8]) -> bool
    ensures { result ≡ list_all is_ascii_digit text.now }
{
    text.iter().all(|byte| byte.is_ascii_digit())
}

// At least one digit, and no 0 before another.
fn leads_well(text: &[u8]) -> bool
    ensures { result ≡ leads_well_text text.now }
{
    match text {
        [] => false,
        [_] => true,
        [first, ..] => *first != b'0',
    }
}

// Decimal, without sign and leading zeros.
fn is_whole(text: &[u8]) -> bool
    ensures { result ≡ is_whole_text text.now }
{
    leads_well(text) && are_digits(text)
}

// The number that the text writes, where it is from the least to the most.
fn whole_in(text: &str, least: u32, most: u32) -> Option<u32>
    ensures { MatchOption result (is_in least most text.now ≡ false)
        (λ n. (is_in least most text.now ≡ true) × (n ≡ digits_value 10 text.now)) }
{
    if !is_whole(text.as_bytes()) {
        return None;
    }
    match text.parse::<u32>() {
        Ok(n) if least <= n && n <= most => Some(n),
        _ => None,
    }
}

// A player's seat.
fn player_in(text: &str) -> Option<u8>
    ensures { MatchOption result (is_player text.now ≡ false) (λ seat. (is_player text.now ≡ true) × (seat ≡ digits_value 10 text.now)) }
{
    match whole_in(text, 1, 32) {
        Some(seat) => Some(seat as u8),
        None => None,
    }
}

pub(crate) fn play(file: &str, end: bool) -> Option<Job<'_>>
    ensures { option_map asked result ≡ play_texts file.now end }
{
    if is_file(file) {
        Some(Job::Play { file, end })
    } else {
        None
    }
}

pub(crate) fn check(file: &str) -> Option<Job<'_>>
    ensures { option_map asked result ≡ check_texts file.now }
{
    if is_file(file) {
        Some(Job::Check { file })
    } else {
        None
    }
}

pub(crate) fn drill(number: &str, lines: &str) -> Option<Job<'static>>
    ensures { option_map asked result ≡ drill_texts number.now lines.now }
{
    match (whole_in(number, 0, u32::MAX), whole_in(lines, 5, 10_000)) {
        (Some(number), Some(lines)) => Some(Job::Drill { number, lines }),
        _ => None,
    }
}

pub(crate) fn serve<'a>(file: &'a str, port: &str, count: &str, end: bool) -> Option<Job<'a>>
    ensures { option_map asked result ≡ serve_texts file.now port.now count.now end }
{
    if !is_file(file) {
        return None;
    }
    match (whole_in(port, 1, 65_535), whole_in(count, 1, 1_024)) {
        (Some(port), Some(count)) => Some(Job::Serve {
            file,
            port: port as u16,
            count,
            end,
        }),
        _ => None,
    }
}

pub(crate) fn verify<'a>(
    file: &'a str,
    script: &'a str,
    seat: &str,
    transcript: &'a str,
) -> Option<Job<'a>>
    ensures { option_map asked result ≡ verify_texts file.now script.now seat.now transcript.now }
{
    if !(is_file(file) && is_file(script) && is_file(transcript)) {
        return None;
    }
    let seat = player_in(seat)?;
    Some(Job::Verify {
        file,
        script,
        seat,
        transcript,
    })
}

pub(crate) fn compare<'a>(
    file: &'a str,
    script: &'a str,
    file2: &'a str,
    script2: &'a str,
    seat: &str,
) -> Option<Job<'a>>
    ensures { option_map asked result ≡ compare_texts file.now script.now file2.now script2.now seat.now }
{
    if !(is_file(file) && is_file(script) && is_file(file2) && is_file(script2)) {
        return None;
    }
    let seat = player_in(seat)?;
    Some(Job::Compare {
        file,
        script,
        file2,
        script2,
        seat,
    })
}

fn play_words(words: &[String]) -> Option<Job<'_>>
    ensures { option_map asked result ≡ play_list (map string_bytes words.now) }
{
    match words {
        [a] => play(a.as_str(), false),
        [a, b] if is_end(a.as_str()) => play(b.as_str(), true),
        [a, b] if is_end(b.as_str()) => play(a.as_str(), true),
        _ => None,
    }
}

fn check_words(words: &[String]) -> Option<Job<'_>>
    ensures { option_map asked result ≡ check_list (map string_bytes words.now) }
{
    match words {
        [a] => check(a.as_str()),
        _ => None,
    }
}

fn drill_words(words: &[String]) -> Option<Job<'_>>
    ensures { option_map asked result ≡ drill_list (map string_bytes words.now) }
{
    match words {
        [number, lines] => drill(number.as_str(), lines.as_str()),
        _ => None,
    }
}

fn serve_with_end<'a>(a: &'a str, b: &'a str, c: &'a str, d: &'a str) -> Option<Job<'a>>
    ensures { option_map asked result ≡ serve_list (a.now ∷ b.now ∷ c.now ∷ d.now ∷ []) }
{
    if is_end(a) {
        serve(b, c, d, true)
    } else if is_end(b) {
        serve(a, c, d, true)
    } else if is_end(c) {
        serve(a, b, d, true)
    } else if is_end(d) {
        serve(a, b, c, true)
    } else {
        None
    }
}

fn serve_words(words: &[String]) -> Option<Job<'_>>
    ensures { option_map asked result ≡ serve_list (map string_bytes words.now) }
{
    match words {
        [a, b, c] => serve(a.as_str(), b.as_str(), c.as_str(), false),
        [a, b, c, d] => serve_with_end(a.as_str(), b.as_str(), c.as_str(), d.as_str()),
        _ => None,
    }
}

fn verify_words(words: &[String]) -> Option<Job<'_>>
    ensures { option_map asked result ≡ verify_list (map string_bytes words.now) }
{
    match words {
        [a, b, c, d] => verify(a.as_str(), b.as_str(), c.as_str(), d.as_str()),
        _ => None,
    }
}

fn compare_words(words: &[String]) -> Option<Job<'_>>
    ensures { option_map asked result ≡ compare_list (map string_bytes words.now) }
{
    match words {
        [a, b, c, d, e] => compare(a.as_str(), b.as_str(), c.as_str(), d.as_str(), e.as_str()),
        _ => None,
    }
}

/// The job of the words. None exactly where they are no form.
pub(crate) fn job_of(words: &[String]) -> Option<Job<'_>>
    ensures { option_map asked result ≡ job_of_words (map string_bytes words.now) }
{
    let [command, rest @ ..] = words else {
        return None;
    };
    match command.as_str() {
        "play" => play_words(rest),
        "check" => check_words(rest),
        "drill" => drill_words(rest),
        "serve" => serve_words(rest),
        "verify" => verify_words(rest),
        "compare" => compare_words(rest),
        _ => None,
    }
}
