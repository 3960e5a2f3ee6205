//! The scripts with which shells complete the program's arguments.

ghost use Rattle.std.specs.Prelude.{◌≡◌, ◌≢◌, ◌⊎◌, ◌↔◌, Ok, Err, [], ◌∷◌, IfOk, IsTrue, codes, map};
ghost use Rattle.escpos_arguments.specs.declared.completions.Shell.{Shell};
ghost use Rattle.escpos_arguments.specs.Shells.{shell_name};

use escpos_jobs::task::NoTask;
use std::convert::AsStr;

/// A shell that completes arguments.
#[derive(Clone, Copy, Debug, PartialEq, Eq)]
pub enum Shell {
    Bash,
    Zsh,
    Fish,
}

impl Shell {
    /// The script that completes the program's arguments.
    pub fn script(self) -> &'static str {
        match self {
            Shell::Bash => BASH,
            Shell::Zsh => ZSH,
            Shell::Fish => FISH,
        }
    }
}

/// Whether the arguments that begin with this word are those of `completions`.
pub fn is_completions_word(word: &str) -> bool
    ensures { IsTrue result ↔ (word.now ≡ codes "completions") }
{
    word == "completions"
}

/// The shell whose script is asked for: `completions` and its name, and nothing more. The program's own name isn't among the arguments.
///
/// `Help` comes where they ask for help, and `Usage` for all others.
pub fn completions_of<S: AsStr>(words: &[S]) -> Result<Shell, NoTask>
    ensures read { IfOk result (λ shell. map S.text words.now ≡ codes "completions" ∷ shell_name shell ∷ []) }
    ensures taken { (shell : Shell) → map S.text words.now ≡ codes "completions" ∷ shell_name shell ∷ [] → result ≡ Ok shell }
    ensures help { result ≡ Err NoTask.Help → (map S.text words.now ≡ codes "completions" ∷ codes "--help" ∷ [])
        ⊎ (map S.text words.now ≡ codes "completions" ∷ codes "-h" ∷ []) }
    ensures no_memory { result ≢ Err NoTask.Memory }
{
    match words {
        [word, name] => shell_asked(word.as_str(), name.as_str()),
        _ => Err(NoTask::Usage),
    }
}

// The shell of this name, after this word.
fn shell_asked(word: &str, name: &str) -> Result<Shell, NoTask>
    ensures read { IfOk result (λ shell. (word.now ≡ codes "completions") × (name.now ≡ shell_name shell)) }
    ensures taken { (shell : Shell) → word.now ≡ codes "completions" → name.now ≡ shell_name shell → result ≡ Ok shell }
    ensures help { result ≡ Err NoTask.Help → (word.now ≡ codes "completions") × ((name.now ≡ codes "--help") ⊎ (name.now ≡ codes "-h")) }
    ensures no_memory { result ≢ Err NoTask.Memory }
{
    if !is_completions_word(word) {
        return Err(NoTask::Usage);
    }
    match name {
        "bash" => Ok(Shell::Bash),
        "zsh" => Ok(Shell::Zsh),
        "fish" => Ok(Shell::Fish),
        "--help" | "-h" => Err(NoTask::Help),
        _ => Err(NoTask::Usage),
    }
}

const BASH: &str = "\
# Completion of escpos_cli for bash.
_escpos_cli() {
    local word=${COMP_WORDS[COMP_CWORD]} given=
    if [ \"$COMP_CWORD\" = 1 ]; then
        given='check render draw encode image play emulate send status probe
            loop queue deliver cancel ledger completions help
            --help --version'
    else
        case ${COMP_WORDS[1]} in
        check) given='--raw --pass --help' ;;
        render) given='--raw --pass --width --text --help' ;;
        draw) given='--raw --pass --width --help' ;;
        encode) given='--raw --width --replace --help' ;;
        image) given='--width --threshold --help' ;;
        play) given='--help' ;;
        emulate) given='--links --follow --condition --condition-file --width --help' ;;
        send) given='--first --openings --wait --width --replace --help' ;;
        status | probe) given='--wait --help' ;;
        loop) given='--width --help' ;;
        queue) given='--raw --width --replace --again --key --help' ;;
        deliver) given='--openings --copy --wait --patience --help' ;;
        cancel) given='--help' ;;
        ledger) given='--first --renew --help' ;;
        completions) given='bash zsh fish' ;;
        esac
    fi
    COMPREPLY=($(compgen -W \"$given\" -- \"$word\"))
}
complete -o default -F _escpos_cli escpos_cli
";

const ZSH: &str = "\
#compdef escpos_cli
# Completion of escpos_cli for zsh.
if (( CURRENT == 2 )); then
    local -a given=(
        'check:List the commands of a stream'
        'render:Print the paper of a stream as text'
        'draw:Draw the paper of a stream'
        'encode:Write the stream of a receipt'
        'image:Make entries of a picture'
        'play:Run a script of failures'
        'emulate:Be a printer'
        'send:Print one receipt without a ledger'
        'status:Ask what the sensors see'
        'probe:Ask what a printer answers'
        'loop:Print a receipt over a link of its own'
        'queue:Take a receipt into a ledger'
        'deliver:Print the receipts that wait'
        'cancel:Take back a receipt that waits'
        'ledger:List the receipts'
        'completions:Print a script for a shell'
        'help:Print the help'
    )
    _describe task given
    return
fi
case $words[2] in
check) compadd -- --raw --pass --help ;;
render) compadd -- --raw --pass --width --text --help ;;
draw) compadd -- --raw --pass --width --help ;;
encode) compadd -- --raw --width --replace --help ;;
image) compadd -- --width --threshold --help ;;
play) compadd -- --help ;;
emulate) compadd -- --links --follow --condition --condition-file --width --help ;;
send) compadd -- --first --openings --wait --width --replace --help ;;
status | probe) compadd -- --wait --help ;;
loop) compadd -- --width --help ;;
queue) compadd -- --raw --width --replace --again --key --help ;;
deliver) compadd -- --openings --copy --wait --patience --help ;;
cancel) compadd -- --help ;;
ledger) compadd -- --first --renew --help ;;
completions) compadd bash zsh fish ;;
esac
_files
";

const FISH: &str = "\
# Completion of escpos_cli for fish.
complete -c escpos_cli -f -n __fish_use_subcommand -a check -d 'List the commands of a stream'
complete -c escpos_cli -f -n __fish_use_subcommand -a render -d 'Print the paper of a stream as text'
complete -c escpos_cli -f -n __fish_use_subcommand -a draw -d 'Draw the paper of a stream'
complete -c escpos_cli -f -n __fish_use_subcommand -a encode -d 'Write the stream of a receipt'
complete -c escpos_cli -f -n __fish_use_subcommand -a image -d 'Make entries of a picture'
complete -c escpos_cli -f -n __fish_use_subcommand -a play -d 'Run a script of failures'
complete -c escpos_cli -f -n __fish_use_subcommand -a emulate -d 'Be a printer'
complete -c escpos_cli -f -n __fish_use_subcommand -a send -d 'Print one receipt without a ledger'
complete -c escpos_cli -f -n __fish_use_subcommand -a status -d 'Ask what the sensors see'
complete -c escpos_cli -f -n __fish_use_subcommand -a probe -d 'Ask what a printer answers'
complete -c escpos_cli -f -n __fish_use_subcommand -a loop -d 'Print a receipt over a link of its own'
complete -c escpos_cli -f -n __fish_use_subcommand -a queue -d 'Take a receipt into a ledger'
complete -c escpos_cli -f -n __fish_use_subcommand -a deliver -d 'Print the receipts that wait'
complete -c escpos_cli -f -n __fish_use_subcommand -a cancel -d 'Take back a receipt that waits'
complete -c escpos_cli -f -n __fish_use_subcommand -a ledger -d 'List the receipts'
complete -c escpos_cli -f -n __fish_use_subcommand -a completions -d 'Print a script for a shell'
complete -c escpos_cli -f -n __fish_use_subcommand -a help -d 'Print the help'
complete -c escpos_cli -n '__fish_seen_subcommand_from check' -l raw
complete -c escpos_cli -n '__fish_seen_subcommand_from check' -l pass
complete -c escpos_cli -n '__fish_seen_subcommand_from render' -l raw
complete -c escpos_cli -n '__fish_seen_subcommand_from render' -l pass
complete -c escpos_cli -n '__fish_seen_subcommand_from render' -l width -x
complete -c escpos_cli -n '__fish_seen_subcommand_from render' -l text
complete -c escpos_cli -n '__fish_seen_subcommand_from draw' -l raw
complete -c escpos_cli -n '__fish_seen_subcommand_from draw' -l pass
complete -c escpos_cli -n '__fish_seen_subcommand_from draw' -l width -x
complete -c escpos_cli -n '__fish_seen_subcommand_from encode' -l raw
complete -c escpos_cli -n '__fish_seen_subcommand_from encode' -l width -x
complete -c escpos_cli -n '__fish_seen_subcommand_from encode' -l replace -x
complete -c escpos_cli -n '__fish_seen_subcommand_from image' -l width -x
complete -c escpos_cli -n '__fish_seen_subcommand_from image' -l threshold -x
complete -c escpos_cli -n '__fish_seen_subcommand_from emulate' -l links -x
complete -c escpos_cli -n '__fish_seen_subcommand_from emulate' -l follow
complete -c escpos_cli -n '__fish_seen_subcommand_from emulate' -l condition -x
complete -c escpos_cli -n '__fish_seen_subcommand_from emulate' -l condition-file -r
complete -c escpos_cli -n '__fish_seen_subcommand_from emulate' -l width -x
complete -c escpos_cli -n '__fish_seen_subcommand_from send' -l first -x
complete -c escpos_cli -n '__fish_seen_subcommand_from send' -l openings -x
complete -c escpos_cli -n '__fish_seen_subcommand_from send' -l wait -x
complete -c escpos_cli -n '__fish_seen_subcommand_from send' -l width -x
complete -c escpos_cli -n '__fish_seen_subcommand_from send' -l replace -x
complete -c escpos_cli -n '__fish_seen_subcommand_from status' -l wait -x
complete -c escpos_cli -n '__fish_seen_subcommand_from probe' -l wait -x
complete -c escpos_cli -n '__fish_seen_subcommand_from loop' -l width -x
complete -c escpos_cli -n '__fish_seen_subcommand_from queue' -l width -x
complete -c escpos_cli -n '__fish_seen_subcommand_from queue' -l replace -x
complete -c escpos_cli -n '__fish_seen_subcommand_from queue' -l again -x
complete -c escpos_cli -n '__fish_seen_subcommand_from queue' -l key -x
complete -c escpos_cli -n '__fish_seen_subcommand_from queue' -l raw
complete -c escpos_cli -n '__fish_seen_subcommand_from deliver' -l openings -x
complete -c escpos_cli -n '__fish_seen_subcommand_from deliver' -l copy -x
complete -c escpos_cli -n '__fish_seen_subcommand_from deliver' -l wait -x
complete -c escpos_cli -n '__fish_seen_subcommand_from deliver' -l patience -x
complete -c escpos_cli -n '__fish_seen_subcommand_from ledger' -l first -x
complete -c escpos_cli -n '__fish_seen_subcommand_from ledger' -l renew -r
complete -c escpos_cli -f -n '__fish_seen_subcommand_from completions' -a 'bash zsh fish'
";
