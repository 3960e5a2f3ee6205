//! The arguments of `probe` and `completions`, and what they ask for.

use crate::support::asking::printer;
use escpos_arguments::{Shell, completions_of, is_completions_word, is_probe_word, probe_task_of};
use escpos_help::texts::USAGE;
use escpos_jobs::task::NoTask;
use escpos_probe::ProbeTask;

// Arguments, and how long a wait they ask for.
const ASKED: [(&'static [&'static str], Option<u32>); 4] = [
    (&["probe", "127.0.0.1:9100"], None),
    (&["probe", "127.0.0.1:9100", "--wait", "1"], Some(1)),
    (&["probe", "--wait=3600", "127.0.0.1:9100"], Some(3_600)),
    (&["probe", "--wait", "30", "127.0.0.1:9100"], Some(30)),
];

#[test]
fn arguments_of_probe(rt: HostRuntime) {
    for (words, wait) in &ASKED {
        let wanted = ProbeTask {
            address: printer(),
            wait: *wait,
        };
        assert!(&rt; probe_task_of(rt.alloc(), words) == Ok(wanted));
    }
}

// Arguments that ask `probe` for nothing, or for help.
const REFUSED: [(&'static [&'static str], NoTask); 12] = [
    (&[], NoTask::Usage),
    (&["probe"], NoTask::Usage),
    (&["probe", "printer"], NoTask::Usage),
    (&["probe", "127.0.0.1"], NoTask::Usage),
    (&["status", "127.0.0.1:9100"], NoTask::Usage),
    (&["probe", "127.0.0.1:9100", "--wait"], NoTask::Usage),
    (&["probe", "127.0.0.1:9100", "--wait", "0"], NoTask::Usage),
    (
        &["probe", "127.0.0.1:9100", "--wait", "3601"],
        NoTask::Usage,
    ),
    (&["probe", "127.0.0.1:9100", "--first", "0"], NoTask::Usage),
    (
        &["probe", "127.0.0.1:9100", "127.0.0.1:9100"],
        NoTask::Usage,
    ),
    (&["probe", "--help"], NoTask::Help),
    (&["probe", "127.0.0.1:9100", "-h"], NoTask::Help),
];

#[test]
fn arguments_that_probe_nothing(rt: HostRuntime) {
    for (words, why) in &REFUSED {
        assert!(&rt; probe_task_of(rt.alloc(), words) == Err(*why));
    }
    assert!(&rt; is_probe_word("probe") && !is_probe_word("prob"));
}

// Arguments, and the shell whose script they ask for.
const SHELLS: [(&'static [&'static str], Result<Shell, NoTask>); 10] = [
    (&["completions", "bash"], Ok(Shell::Bash)),
    (&["completions", "zsh"], Ok(Shell::Zsh)),
    (&["completions", "fish"], Ok(Shell::Fish)),
    (&["completions", "--help"], Err(NoTask::Help)),
    (&["completions", "-h"], Err(NoTask::Help)),
    (&["completions"], Err(NoTask::Usage)),
    (&["completions", "sh"], Err(NoTask::Usage)),
    (&["completions", "Bash"], Err(NoTask::Usage)),
    (&["completions", "bash", "zsh"], Err(NoTask::Usage)),
    (&["check", "bash"], Err(NoTask::Usage)),
];

#[test]
fn arguments_of_completions(rt: HostRuntime) {
    for (words, wanted) in &SHELLS {
        assert!(&rt; completions_of(words) == *wanted);
    }
    assert!(&rt; is_completions_word("completions") && !is_completions_word("completion"));
}

// Each word and each option of the usage stands in each script.
#[test]
fn scripts_have_all_words(rt: HostRuntime) {
    for part in USAGE.split_whitespace() {
        let bare = part.trim_start_matches('[').trim_end_matches(']');
        let name = bare.trim_start_matches("--");
        let is_option = bare.starts_with("--") && name != "version";
        for shell in [Shell::Bash, Shell::Zsh, Shell::Fish] {
            assert!(&rt; !is_option || shell.script().contains(name));
        }
    }
    for line in USAGE.lines() {
        let mut words = line
            .split_whitespace()
            .skip_while(|word| *word != "escpos_cli");
        let _program = words.next();
        let word = words.next().unwrap_or("check");
        for shell in [Shell::Bash, Shell::Zsh, Shell::Fish] {
            assert!(&rt; word.starts_with('-') || shell.script().contains(word));
        }
    }
}
