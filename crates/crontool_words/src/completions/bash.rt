//! The completions of bash: a script that completes lines of `crontool`.

use crate::completions::{Place, Values, place_of, push_all, push_joined, values_of};
use crate::subcommands::{Subcommand, subcommands};
use crate::words::Word;
use std::alloc::{AllocError, Global};

const END: &str = r#"
_crontool_offer() { # VALUES WORD
    local zones=${TZDIR:-/usr/share/zoneinfo}/zone.tab
    case $1 in
    '' | :any) ;;
    :files) compopt -o filenames; mapfile -t COMPREPLY < <(compgen -f -- "$2") ;;
    :folders) compopt -o filenames; mapfile -t COMPREPLY < <(compgen -d -- "$2") ;;
    :zones) mapfile -t COMPREPLY < <(compgen -W "UTC local $(awk '!/^#/ { print $3 }' "$zones" 2>/dev/null)" -- "$2") ;;
    *) mapfile -t COMPREPLY < <(compgen -W "${1//,/ }" -- "$2") ;;
    esac
    if [[ ${COMPREPLY[0]} == *= ]]; then compopt -o nospace; fi
}

_crontool() {
    local word=${COMP_WORDS[COMP_CWORD]} options='' places='' values='' at=2
    local any='([^ ]*)' it names=--help
    COMPREPLY=()
    if [ "$COMP_CWORD" -eq 1 ]; then
        _crontool_offer "$_crontool_subcommands,help,--help,--version" "$word"
        return
    fi
    _crontool_words "${COMP_WORDS[1]}"
    read -ra places <<<"$places"
    while [ "$at" -lt "$COMP_CWORD" ]; do
        values=''
        if [[ " $options " =~ " ${COMP_WORDS[at]}="$any" " ]]; then
            values=${BASH_REMATCH[1]} at=$((at + 1))
            if [ "${COMP_WORDS[at]}" = = ]; then at=$((at + 1)); fi
        elif [[ ${COMP_WORDS[at]} != -?* && ${places[0]} != *... ]]; then
            places=("${places[@]:1}")
        fi
        at=$((at + 1))
    done
    if [ "$at" -gt "$COMP_CWORD" ]; then
        if [ "$word" = = ]; then word=''; fi
        _crontool_offer "$values" "$word"
    elif [[ $word == -* ]]; then
        for it in $options; do names+=,${it%%=*}; done
        _crontool_offer "$names" "$word"
    else
        _crontool_offer "${places[0]%...}" "$word"
    fi
}

complete -F _crontool crontool
"#;

fn push_values(script: &mut String, name: &str) -> Result<(), AllocError> {
    match values_of(name) {
        Values::Files => script.push_str(":files"),
        Values::Folders => script.push_str(":folders"),
        Values::Zones => script.push_str(":zones"),
        Values::Words(words) => push_joined(script, words, ","),
        Values::Any => script.push_str(":any"),
    }
}

fn push_option(script: &mut String, word: &Word) -> Result<(), AllocError> {
    let Word(name, kind, _, _) = *word;
    match place_of(kind) {
        Place::Flag => push_all(script, &[" --", name]),
        Place::Option(value, _) => {
            push_all(script, &[" --", name, "="])?;
            push_values(script, value)
        }
        Place::Value(_) => Ok(()),
    }
}

fn push_place(script: &mut String, word: &Word) -> Result<(), AllocError> {
    let Word(name, kind, _, _) = *word;
    let Place::Value(is_many) = place_of(kind) else {
        return Ok(());
    };
    script.push(' ')?;
    push_values(script, name)?;
    script.push_str(if is_many { "..." } else { "" })
}

fn push_subcommand(script: &mut String, said: &Subcommand) -> Result<(), AllocError> {
    push_all(script, &["    ", said.name, ") options='"])?;
    for word in said.words.iter().chain(said.plan) {
        push_option(script, word)?;
    }
    script.push_str("' places='")?;
    for word in said.words.iter().chain(said.plan) {
        push_place(script, word)?;
    }
    script.push_str("' ;;\n")
}

/// Returns the script that completes lines of `crontool` in bash.
pub(crate) fn script(alloc: Global) -> Result<String, AllocError> {
    let mut script = String::new(alloc);
    script.push_str("# Completions of crontool for bash\n_crontool_subcommands=")?;
    let mut front = "";
    for said in subcommands() {
        push_all(&mut script, &[front, said.name])?;
        front = ",";
    }
    script.push_str("\n\n_crontool_words() { # SUBCOMMAND\n    case $1 in\n")?;
    for said in subcommands() {
        push_subcommand(&mut script, said)?;
    }
    script.push_str("    help) places=$_crontool_subcommands ;;\n    esac\n}\n")?;
    script.push_str(END)?;
    Ok(script)
}
