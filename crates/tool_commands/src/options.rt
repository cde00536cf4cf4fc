// The options of `evf upgrade` and `evf resave`: `--rule N` and `--to DIR`, in either order before the names.
use answers::Copying;
use byte_writer::advance;
use system::streams::System;
use times::{HALVES_AWAY, HALVES_TO_EVEN};
use tool_names::{any_begins, is_option, is_word, words_from};
use tool_upgrade::misused;

// The words of N and of DIR, where the options are there, and the first word behind the options.
#[derive(Clone, Copy)]
pub struct Options {
    pub number: Option<usize>,
    pub folder: Option<usize>,
    pub first: usize,
}

// Takes the option that stands next, where it is one that was not taken yet.
fn take_option(rt: &impl System, options: Options) -> Options {
    let at = options.first;
    if options.number.is_none() && is_word(rt, at, b"--rule") {
        Options {
            number: Some(advance(at, 1)),
            first: advance(at, 2),
            ..options
        }
    } else if options.folder.is_none() && is_word(rt, at, b"--to") {
        Options {
            folder: Some(advance(at, 1)),
            first: advance(at, 2),
            ..options
        }
    } else {
        options
    }
}

// The options among the words from `first` on.
pub(crate) fn options_from(rt: &impl System, first: usize) -> Options {
    let none = Options {
        number: None,
        folder: None,
        first,
    };
    take_option(rt, take_option(rt, none))
}

// The rule of rounding that N asks for.
fn rule_at(rt: &impl System, i: usize) -> Option<u8> {
    if is_word(rt, i, b"1") {
        Some(HALVES_AWAY)
    } else if is_word(rt, i, b"2") {
        Some(HALVES_TO_EVEN)
    } else {
        None
    }
}

// The rule of rounding that is asked for, 1 without `--rule`, where that stands as it should, or nowhere; what is
// wrong is told.
fn rule_of(rt: &impl System, how: Copying, options: Options) -> Option<u8> {
    let rule = match options.number {
        Some(i) => rule_at(rt, i),
        None => Some(HALVES_AWAY),
    };
    if rule.is_none() {
        misused(rt, how, b" --rule: 1 or 2 is needed\n");
        return None;
    }
    if any_begins(rt, options.first, b"--rule") {
        misused(
            rt,
            how,
            b" --rule: write --rule N once, before the names; for a file of that name write ./ before it\n",
        );
        return None;
    }
    rule
}

// Whether DIR is there, word i; that it is not is told.
fn has_folder(rt: &impl System, how: Copying, i: usize) -> bool {
    if words_from(rt, i) == 0 || is_word(rt, i, b"--rule") {
        misused(rt, how, b" --to: no DIR\n");
        return false;
    }
    true
}

// Whether the words from `first` on are IN and OUT; what is wrong is told.
fn are_in_and_out(rt: &impl System, how: Copying, first: usize) -> bool {
    if is_option(rt, first) {
        misused(
            rt,
            how,
            b": no such option; for a file of that name write ./ before it\n",
        );
        return false;
    }
    if words_from(rt, first) != 2 {
        misused(rt, how, b": IN and OUT are needed, two names\n");
        return false;
    }
    true
}

// The rule of rounding, where the options and the words behind them are used well; what is wrong is told.
pub(crate) fn rule_used_well(rt: &impl System, how: Copying, options: Options) -> Option<u8> {
    let rule = rule_of(rt, how, options)?;
    let is_used_well = match options.folder {
        Some(i) => has_folder(rt, how, i),
        None => are_in_and_out(rt, how, options.first),
    };
    is_used_well.then_some(rule)
}
