//! The completions of three shells.

const BASH: &str = r#"# Completions of restamp for bash.
_restamp_zones() {
    local folder=${TZDIR:-/usr/share/zoneinfo}
    [ -r "$folder/tzdata.zi" ] && awk '$1 == "Z" { print $2 } $1 == "L" { print $3 }' "$folder/tzdata.zi"
}
_restamp() {
    local word=${COMP_WORDS[COMP_CWORD]} before=${COMP_WORDS[COMP_CWORD - 1]} words=
    case $before in
        -f | --from) words='rfc3339 rfc9557 rfc2822 iso8601 unix unix-ms unix-us unix-ns common syslog' ;;
        -t | --to) words='rfc3339 rfc9557 rfc2822 iso8601 unix unix-ms unix-us unix-ns' ;;
        -z | --zone) words="keep utc local $(_restamp_zones)" ;;
        --in) words="local $(_restamp_zones)" ;;
        --fold) words='earlier later refuse' ;;
        --digits) words='auto 0 1 2 3 4 5 6 7 8 9' ;;
        --color) words='auto always never' ;;
        --completions) words='bash zsh fish' ;;
        -k | --field | -b | --between | -a | --after | -d | --delimiter) return ;;
        --latest | -s | --since | -e | --until) words='now today yesterday' ;;
        --year | --offset | --errors) return ;;
        *)
            if [[ $word == -* ]]; then
                words='-l --front --anywhere -k --field -b --between -a --after -d --delimiter --blanks --csv
                    -f --from --year --latest --offset --in --fold -t --to -z --zone -u --utc --digits -o --only
                    -s --since -e --until --drop-refused -q --quiet --errors -x --strict
                    --keep-going --color -i --in-place --progress --completions -h --help -V --version'
            else
                COMPREPLY=($(compgen -f -- "$word"))
                return
            fi
            ;;
    esac
    COMPREPLY=($(compgen -W "$words" -- "$word"))
}
complete -o filenames -F _restamp restamp
"#;

const ZSH: &str = r#"#compdef restamp
# Completions of restamp for zsh.
_restamp() {
    local -a reads writes zones
    local folder=${TZDIR:-/usr/share/zoneinfo}
    zones=(local)
    [[ -r $folder/tzdata.zi ]] && zones+=($(awk '$1 == "Z" { print $2 } $1 == "L" { print $3 }' $folder/tzdata.zi))
    writes=(rfc3339 rfc9557 rfc2822 iso8601 unix unix-ms unix-us unix-ns)
    reads=($writes common syslog)
    _arguments -s \
        '(-l --front)'{-l,--front}'[the line begins with the time]' \
        '--anywhere[the first text that a format matches]' \
        '(-k --field)'{-k,--field}'[field N, from 1]:number:' \
        '(-b --between)'{-b,--between}'[from after a text up to another]:text:' \
        '(-a --after)'{-a,--after}'[after a text]:text:' \
        '(-d --delimiter)'{-d,--delimiter}'[ends a field]:byte:' \
        '--blanks[fields are words between blanks]' \
        '--csv[a field may be in quotes]' \
        '*'{-f,--from}'[the format that is read]:format:($reads)' \
        '--year[the year of times without one]:year:' \
        '(--year)--latest[times that have none are the latest not after it]:time:(now today yesterday)' \
        '(--in)--offset[the offset of times without one]:offset:' \
        '(--offset)--in[the zone of times without an offset]:zone:($zones)' \
        '--fold[which moment an ambiguous time is]:which:(earlier later refuse)' \
        '(-t --to)'{-t,--to}'[the format that is written]:format:($writes)' \
        '(-z --zone -u --utc)'{-z,--zone}'[the zone in which times are written]:zone:(keep utc $zones)' \
        '(-z --zone -u --utc)'{-u,--utc}'[same as --zone utc]' \
        '--digits[digits of a fraction]:digits:(auto 0 1 2 3 4 5 6 7 8 9)' \
        '(-o --only)'{-o,--only}'[writes the times alone]' \
        '(-s --since)'{-s,--since}'[drops lines whose time is before]:time:(now today yesterday)' \
        '(-e --until)'{-e,--until}'[drops lines whose time is not before]:time:(now today yesterday)' \
        '--drop-refused[drops lines without a time or with a rejected one]' \
        '(-q --quiet)'{-q,--quiet}'[reports no rejected line]' \
        '--errors[reports the first rejected lines of each file]:number:' \
        '(-x --strict)'{-x,--strict}'[stops at the first rejected line]' \
        '--keep-going[continues under --strict]' \
        '--color[colours reports]:when:(auto always never)' \
        '(-i --in-place -o --only)'{-i=-,--in-place=-}'[replaces each file]::suffix:' \
        '--progress[reports how far a long file was read]' \
        '--completions[prints completions]:shell:(bash zsh fish)' \
        '(-h --help)'{-h,--help}'[prints help]' \
        '(-V --version)'{-V,--version}'[prints the version]' \
        '*:file:_files'
}
_restamp "$@"
"#;

const FISH: &str = r#"# Completions of restamp for fish.
set -l writes rfc3339 rfc9557 rfc2822 iso8601 unix unix-ms unix-us unix-ns
function __restamp_zones
    printf '%s\n' local
    set -l folder /usr/share/zoneinfo
    set -q TZDIR; and set folder $TZDIR
    test -r $folder/tzdata.zi; and awk '$1 == "Z" { print $2 } $1 == "L" { print $3 }' $folder/tzdata.zi
end
complete -c restamp -s l -l front -d 'The line begins with the time'
complete -c restamp -l anywhere -d 'The first text that a format matches'
complete -c restamp -s k -l field -x -d 'Field N, from 1'
complete -c restamp -s b -l between -x -d 'From after a text up to another'
complete -c restamp -s a -l after -x -d 'After a text'
complete -c restamp -s d -l delimiter -x -d 'Ends a field'
complete -c restamp -l blanks -d 'Fields are words between blanks'
complete -c restamp -l csv -d 'A field may be in quotes'
complete -c restamp -s f -l from -x -a "$writes common syslog" -d 'The format that is read'
complete -c restamp -l year -x -d 'The year of times without one'
complete -c restamp -l latest -x -a 'now today yesterday' -d 'Times without one are the latest not after it'
complete -c restamp -l offset -x -d 'The offset of times without one'
complete -c restamp -l in -x -a '(__restamp_zones)' -d 'The zone of times without an offset'
complete -c restamp -l fold -x -a 'earlier later refuse' -d 'Which moment an ambiguous time is'
complete -c restamp -s t -l to -x -a "$writes" -d 'The format that is written'
complete -c restamp -s z -l zone -x -a 'keep utc (__restamp_zones)' -d 'The zone in which times are written'
complete -c restamp -s u -l utc -d 'Same as --zone utc'
complete -c restamp -l digits -x -a 'auto 0 1 2 3 4 5 6 7 8 9' -d 'Digits of a fraction'
complete -c restamp -s o -l only -d 'Writes the times alone'
complete -c restamp -s s -l since -x -a 'now today yesterday' -d 'Drops lines whose time is before'
complete -c restamp -s e -l until -x -a 'now today yesterday' -d 'Drops lines whose time is not before'
complete -c restamp -l drop-refused -d 'Drops lines without a time or with a rejected one'
complete -c restamp -s q -l quiet -d 'Reports no rejected line'
complete -c restamp -l errors -x -d 'Reports the first rejected lines of each file'
complete -c restamp -s x -l strict -d 'Stops at the first rejected line'
complete -c restamp -l keep-going -d 'Continues under --strict'
complete -c restamp -l color -x -a 'auto always never' -d 'Colours reports'
complete -c restamp -s i -l in-place -d 'Replaces each file'
complete -c restamp -l progress -d 'Reports how far a long file was read'
complete -c restamp -l completions -x -a 'bash zsh fish' -d 'Prints completions'
complete -c restamp -s h -l help -d 'Prints help'
complete -c restamp -s V -l version -d 'Prints the version'
"#;

/// The completion script of `bash`, `zsh` or `fish`; `None` for any other name.
pub(crate) fn completions_of(shell: &str) -> Option<&'static str> {
    match shell {
        "bash" => Some(BASH),
        "zsh" => Some(ZSH),
        "fish" => Some(FISH),
        _ => None,
    }
}
