// The word count's acts, by examples.
use samza_model::{Act, Answer, Bin, Envelope, Job, NoMemory};
use shipped_jobs::WordCount;
use std::alloc::Global;
use std::test::Fail;
use test_kit::{bin, is_text, message};

#[derive(Clone, Copy)]
enum Want {
    Get(&'static str),
    Put(&'static str, &'static str),
    Send(&'static str, &'static str),
    Done,
    Fail(u32),
}

fn is_wanted(act: &Act, want: Want) -> bool {
    match (act, want) {
        (Act::Get { store: 0, key }, Want::Get(word)) => is_text(Some(key), Some(word)),
        (
            Act::Put {
                store: 0,
                key,
                value,
            },
            Want::Put(word, text),
        ) => is_text(Some(key), Some(word)) && is_text(Some(value), Some(text)),
        (Act::Send { output: 0, body }, Want::Send(word, text)) => {
            is_text(Some(&body.key), Some(word)) && is_text(body.value.as_ref(), Some(text))
        }
        (Act::Done, Want::Done) => true,
        (Act::Fail(code), Want::Fail(wanted)) => *code == wanted,
        _ => false,
    }
}

/// How such an act is answered, where each key is missing.
fn answer_to(want: Want) -> Answer {
    match want {
        Want::Get(_) => Answer::Missing,
        _ => Answer::Noted,
    }
}

/// Whether the job acts on the message so behind these answers.
fn is_acted(
    alloc: Global,
    message: &Envelope,
    answers: &[Answer],
    want: Want,
) -> Result<bool, NoMemory> {
    let act = WordCount.act(alloc, message, answers)?;
    Ok(is_wanted(&act, want))
}

/// Whether these are the job's acts on the message, where it is answered that each key is missing.
fn are_acts(alloc: Global, message: &Envelope, wants: &[Want]) -> Result<bool, NoMemory> {
    let mut answers = Vec::new(alloc);
    for want in wants {
        if !is_acted(alloc, message, answers.as_slice(), *want)? {
            return Ok(false);
        }
        answers.push(answer_to(*want))?;
    }
    Ok(true)
}

/// The same of a message of this value.
fn acts_so(alloc: Global, value: Option<Bin>, wants: &[Want]) -> Result<bool, NoMemory> {
    let message = message(alloc, 7, value)?;
    are_acts(alloc, &message, wants)
}

const TWO_WORDS: &[Want] = &[
    Want::Get("a"),
    Want::Put("a", "1"),
    Want::Send("a", "1"),
    Want::Get("b"),
    Want::Put("b", "1"),
    Want::Send("b", "1"),
    Want::Done,
];

#[test]
fn each_word_is_got_put_and_sent(rt: HostRuntime) -> Result<(), Fail> {
    let alloc = rt.alloc();
    assert!(rt; acts_so(alloc, Some(bin(alloc, " a  b ")?), TWO_WORDS)?);
    Ok(())
}

/// What the store has of the word w, and the act behind it.
const STORED: &[(&str, Want)] = &[
    ("0", Want::Put("w", "1")),
    ("7", Want::Put("w", "8")),
    ("x", Want::Fail(2)),
    ("", Want::Fail(2)),
    ("+7", Want::Fail(2)),
    ("07", Want::Fail(2)),
    ("18446744073709551616", Want::Fail(2)),
    ("18446744073709551615", Want::Fail(2)),
    (
        "18446744073709551614",
        Want::Put("w", "18446744073709551615"),
    ),
];

/// Whether the job acts so where it is answered that the store has this value of the word w.
fn counts_on(alloc: Global, found: &str, want: Want) -> Result<bool, NoMemory> {
    let found = [Answer::Found(bin(alloc, found)?)];
    let message = message(alloc, 7, Some(bin(alloc, "w")?))?;
    is_acted(alloc, &message, &found, want)
}

#[test]
fn a_stored_value_counts_if_it_is_a_count(rt: HostRuntime) -> Result<(), Fail> {
    for (found, want) in STORED {
        assert!(rt; counts_on(rt.alloc(), found, *want)?, "at {found}");
    }
    Ok(())
}

#[test]
fn a_word_above_1024_bytes_is_skipped(rt: HostRuntime) -> Result<(), Fail> {
    let alloc = rt.alloc();
    let long = Bin::from_vec(vec![in alloc; b'x'; 1025]?);
    assert!(rt; acts_so(alloc, Some(long), &[Want::Done])?);
    Ok(())
}

#[test]
fn a_message_without_value_fails_and_a_window_is_done(rt: HostRuntime) -> Result<(), Fail> {
    let alloc = rt.alloc();
    let window = WordCount.window(alloc, &[])?;
    assert!(rt; acts_so(alloc, None, &[Want::Fail(1)])? && is_wanted(&window, Want::Done));
    Ok(())
}
