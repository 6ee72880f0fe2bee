//! What shells complete of the command line. A new option or subcommand goes into each of the three.

/// The completions for bash.
pub const BASH: &str =
    r#"# Completions of backfill for bash. Source them, or keep them as backfill in ~/.local/share/bash-completion/completions.

# The files that begin with the word.
_backfill_files() {
    compopt -o filenames 2> /dev/null
    mapfile -t COMPREPLY < <(compgen -f -- "$1")
}

_backfill() {
    local word=$2 before=$3 commands='check list single dry run clear show page explain answers schema completions help' command='' options='' words='' at
    COMPREPLY=()
    # --from=T comes in three words
    [[ $word != '=' ]] || word=''
    [[ $before != '=' ]] || before=${COMP_WORDS[COMP_CWORD - 2]}
    for ((at = 1; at < COMP_CWORD; at++)); do
        if [[ ${COMP_WORDS[at]} != -* ]]; then
            command=${COMP_WORDS[at]}
            break
        fi
    done

    case $before in
        --zone-file | --table | --seeds | --out | --keep | --launcher | --logs | --journal | --json)
            _backfill_files "$word"
            return
            ;;
        --color)
            mapfile -t COMPREPLY < <(compgen -W 'auto always never' -- "$word")
            return
            ;;
        --at | --from | --to | --on | --task | --run | --index | --workers | --stop-after | --width) return ;;
    esac

    case $command in
        '') options='--help --version' words=$commands ;;
        help) words=$commands ;;
        check) options='--zone-file --explain --help' ;;
        list) options='--zone-file --from --to --on --some --help' ;;
        single) options='--zone-file --at --out --help' ;;
        dry) options='--zone-file --from --to --on --some --workers --progress --out --keep --help' ;;
        run) options='--zone-file --from --to --on --some --workers --progress --out --keep --launcher --logs --journal --stop-after --retry-failed --quiet --help' ;;
        clear) options='--zone-file --task --run --index --seeds --failed --plan --table --from --to --on --some --workers --progress --out --launcher --logs --journal --stop-after --retry-failed --quiet --help' ;;
        show) options='--zone-file --from --to --failed --width --color --json --help' ;;
        page) options='--zone-file --states-only --journal --help' ;;
        explain) options='--zone-file --run --task --index --help' ;;
        answers) options='--help' ;;
        schema) options='--help' words='graph table' ;;
        completions) options='--help' words='bash zsh fish' ;;
    esac
    if [[ $word == -* ]]; then
        mapfile -t COMPREPLY < <(compgen -W "$options" -- "$word")
    elif [[ -n $words ]]; then
        mapfile -t COMPREPLY < <(compgen -W "$words" -- "$word")
    else
        _backfill_files "$word"
    fi
}

complete -F _backfill backfill
"#;

/// The completions for zsh.
pub const ZSH: &str = r#"#compdef backfill
# Completions of backfill for zsh. Source them, or keep them as _backfill in a folder of $fpath.

_backfill() {
    local curcontext=$curcontext state line
    typeset -A opt_args
    local -a commands help version zone_file explain at from to on some task run index seeds failed plan table workers progress out keep launcher logs journal stop_after retry_failed quiet shown_from shown_to shown_failed width color json states_only times one_run one_task one_index graph_file table_file report_file lone_report format shell

    commands=(
        'check:Checks the graph, and tells how many tasks and edges it has'
        'list:Lists the data intervals that start in a range'
        'single:Runs the graph once, answered from a table'
        'dry:Runs the graph over a range, answered from a table'
        'run:Runs the graph over a range, with the programs of its tasks'
        'clear:Runs tasks of runs again, with all that follows from them'
        'show:Shows a report as a grid of characters'
        'page:Writes a page that shows a report'
        'explain:Tells why a task of a run, or a run, has its state'
        'answers:Prints the table of answers that a report tells'
        'schema:Prints the JSON Schema of graph files or tables'
        'completions:Prints what a shell completes'
        'help:Prints help'
    )

    help=('(-h --help)'{-h,--help}'[Prints help]')
    version=('(-V --version)'{-V,--version}'[Prints the version]')
    zone_file=('--zone-file[The zone file that the zone `file` means]:zone file:_files')
    explain=('--explain[Tells all that is wrong with a graph that is refused]')
    at=('--at[The moment of the run]:moment: ')
    from=('--from[The first moment at which an interval may start]:moment: ')
    to=('--to[The last moment at which an interval may start]:moment: ')
    on=('--on[The days on which an interval starts, in place of both]:days: ')
    some=('--some[Refuses a range in which no interval starts]')
    task=('*--task[A task to clear]:task: ')
    run=('*--run[The logical date of the run in which it is cleared]:moment: ')
    index=('*--index[The map index of the instance that is cleared of it]:number: ')
    seeds=('--seeds[The file of what to clear]:file:_files')
    failed=('--failed[Clears each instance that failed]')
    plan=('--plan[Prints what is cleared, and runs nothing]')
    table=('--table[The table that answers in place of programs]:table:_files')
    workers=('--workers[How many tries may run at once]:number from 1 to 64: ')
    progress=('--progress[Tells how far the runs are]')
    out=('--out[The file that the report goes to]:report:_files')
    keep=('--keep[The report whose tries are kept]:report:_files')
    launcher=('--launcher[The program that the words of commands are handed to]:program:_files')
    logs=('--logs[The folder in which the logs of tries are kept]:folder:_files -/')
    journal=('--journal[The file that tries are recorded in as they end, and gone on from]:journal:_files')
    stop_after=('--stop-after[Behind how many failed tries no further one begins]:number: ')
    retry_failed=('--retry-failed[Makes the failed tries of the journal again]')
    quiet=('--quiet[Tells neither progress nor which tries fail]')
    shown_from=('--from[Shows the runs from this moment on]:moment: ')
    shown_to=('--to[Shows the runs up to this moment]:moment: ')
    shown_failed=('--failed[Shows only what failed, is upstream_failed or has no status]')
    width=('--width[The width in characters]:number from 20 to 10000: ')
    color=('--color[When to colour]:when:(auto always never)')
    json=('--json[Prints an object for each task instance of this report, in place of a grid]:report:_files')
    states_only=('--states-only[Leaves the report out of the page]')
    times=('--journal[The journal whose times the page has]:journal:_files')
    one_run=('--run[The logical date of the run]:moment: ')
    one_task=('--task[The task; without it the run is explained]:task: ')
    one_index=('--index[The map index of one instance of an expanded task]:number: ')
    graph_file=('1:graph:_files')
    table_file=('2:table:_files')
    report_file=('2:report:_files')
    lone_report=('1:report:_files')
    format=('1:format:(graph table)')
    shell=('1:shell:(bash zsh fish)')

    _arguments -C $help $version '1:command:->command' '*::argument:->argument'
    case $state in
        command) _describe command commands ;;
        argument)
            case $line[1] in
                help) _describe command commands ;;
                check) _arguments $help $zone_file $explain $graph_file ;;
                list) _arguments $help $zone_file $from $to $on $some $graph_file ;;
                single) _arguments $help $zone_file $at $out $graph_file $table_file ;;
                dry) _arguments $help $zone_file $from $to $on $some $workers $progress $out $keep $graph_file $table_file ;;
                run) _arguments $help $zone_file $from $to $on $some $workers $progress $out $keep $launcher $logs $journal $stop_after $retry_failed $quiet $graph_file ;;
                clear) _arguments $help $zone_file $task $run $index $seeds $failed $plan $table $from $to $on $some $workers $progress $out $launcher $logs $journal $stop_after $retry_failed $quiet $graph_file $report_file ;;
                show) _arguments $help $zone_file $shown_from $shown_to $shown_failed $width $color $json $graph_file $report_file ;;
                page) _arguments $help $zone_file $states_only $times $graph_file $report_file ;;
                explain) _arguments $help $zone_file $one_run $one_task $one_index $graph_file $report_file ;;
                answers) _arguments $help $lone_report ;;
                schema) _arguments $help $format ;;
                completions) _arguments $help $shell ;;
            esac
            ;;
    esac
}

# Loaded by the completion system it is called at once, and sourced it is made known.
if [[ $funcstack[1] == _backfill ]]; then
    _backfill "$@"
else
    compdef _backfill backfill
fi
"#;

/// The completions for fish.
pub const FISH: &str =
    r#"# Completions of backfill for fish. Source them, or keep them as backfill.fish in ~/.config/fish/completions.

complete -c backfill -f
complete -c backfill -n __fish_use_subcommand -a check -d 'Checks the graph, and tells how many tasks and edges it has'
complete -c backfill -n __fish_use_subcommand -a list -d 'Lists the data intervals that start in a range'
complete -c backfill -n __fish_use_subcommand -a single -d 'Runs the graph once, answered from a table'
complete -c backfill -n __fish_use_subcommand -a dry -d 'Runs the graph over a range, answered from a table'
complete -c backfill -n __fish_use_subcommand -a run -d 'Runs the graph over a range, with the programs of its tasks'
complete -c backfill -n __fish_use_subcommand -a clear -d 'Runs tasks of runs again, with all that follows from them'
complete -c backfill -n __fish_use_subcommand -a show -d 'Shows a report as a grid of characters'
complete -c backfill -n __fish_use_subcommand -a page -d 'Writes a page that shows a report'
complete -c backfill -n __fish_use_subcommand -a explain -d 'Tells why a task of a run, or a run, has its state'
complete -c backfill -n __fish_use_subcommand -a answers -d 'Prints the table of answers that a report tells'
complete -c backfill -n __fish_use_subcommand -a schema -d 'Prints the JSON Schema of graph files or tables'
complete -c backfill -n __fish_use_subcommand -a completions -d 'Prints what a shell completes'
complete -c backfill -n __fish_use_subcommand -a help -d 'Prints help'

complete -c backfill -n '__fish_seen_subcommand_from help' -a 'check list single dry run clear show page explain answers schema completions help'
complete -c backfill -n '__fish_seen_subcommand_from schema' -a 'graph table'
complete -c backfill -n '__fish_seen_subcommand_from completions' -a 'bash zsh fish'
complete -c backfill -n '__fish_seen_subcommand_from check list single dry run clear show page explain answers' -F

complete -c backfill -n 'not __fish_seen_subcommand_from help' -s h -l help -d 'Prints help'
complete -c backfill -n __fish_use_subcommand -s V -l version -d 'Prints the version'
complete -c backfill -n '__fish_seen_subcommand_from check list single dry run clear show page explain' -l zone-file -r -F -d 'The zone file that the zone `file` means'
complete -c backfill -n '__fish_seen_subcommand_from check' -l explain -d 'Tells all that is wrong with a graph that is refused'
complete -c backfill -n '__fish_seen_subcommand_from single' -l at -x -d 'The moment of the run'
complete -c backfill -n '__fish_seen_subcommand_from clear' -l task -x -d 'A task to clear'
complete -c backfill -n '__fish_seen_subcommand_from clear' -l run -x -d 'The logical date of the run in which it is cleared'
complete -c backfill -n '__fish_seen_subcommand_from clear' -l index -x -d 'The map index of the instance that is cleared of it'
complete -c backfill -n '__fish_seen_subcommand_from clear' -l seeds -r -F -d 'The file of what to clear'
complete -c backfill -n '__fish_seen_subcommand_from clear' -l failed -d 'Clears each instance that failed'
complete -c backfill -n '__fish_seen_subcommand_from clear' -l plan -d 'Prints what is cleared, and runs nothing'
complete -c backfill -n '__fish_seen_subcommand_from clear' -l table -r -F -d 'The table that answers in place of programs'
complete -c backfill -n '__fish_seen_subcommand_from list dry run clear' -l from -x -d 'The first moment at which an interval may start'
complete -c backfill -n '__fish_seen_subcommand_from list dry run clear' -l to -x -d 'The last moment at which an interval may start'
complete -c backfill -n '__fish_seen_subcommand_from list dry run clear' -l on -x -d 'The days on which an interval starts, in place of both'
complete -c backfill -n '__fish_seen_subcommand_from list dry run clear' -l some -d 'Refuses a range in which no interval starts'
complete -c backfill -n '__fish_seen_subcommand_from dry run clear' -l workers -x -d 'How many tries may run at once, 1 to 64'
complete -c backfill -n '__fish_seen_subcommand_from dry run clear' -l progress -d 'Tells how far the runs are'
complete -c backfill -n '__fish_seen_subcommand_from single dry run clear' -l out -r -F -d 'The file that the report goes to'
complete -c backfill -n '__fish_seen_subcommand_from dry run' -l keep -r -F -d 'The report whose tries are kept'
complete -c backfill -n '__fish_seen_subcommand_from run clear' -l launcher -r -F -d 'The program that the words of commands are handed to'
complete -c backfill -n '__fish_seen_subcommand_from run clear' -l logs -r -F -d 'The folder in which the logs of tries are kept'
complete -c backfill -n '__fish_seen_subcommand_from run clear' -l journal -r -F -d 'The file that tries are recorded in as they end, and gone on from'
complete -c backfill -n '__fish_seen_subcommand_from run clear' -l stop-after -x -d 'Behind how many failed tries no further one begins'
complete -c backfill -n '__fish_seen_subcommand_from run clear' -l retry-failed -d 'Makes the failed tries of the journal again'
complete -c backfill -n '__fish_seen_subcommand_from run clear' -l quiet -d 'Tells neither progress nor which tries fail'
complete -c backfill -n '__fish_seen_subcommand_from show' -l from -x -d 'Shows the runs from this moment on'
complete -c backfill -n '__fish_seen_subcommand_from show' -l to -x -d 'Shows the runs up to this moment'
complete -c backfill -n '__fish_seen_subcommand_from show' -l failed -d 'Shows only what failed, is upstream_failed or has no status'
complete -c backfill -n '__fish_seen_subcommand_from show' -l width -x -d 'The width in characters, 20 to 10000'
complete -c backfill -n '__fish_seen_subcommand_from show' -l color -x -a 'auto always never' -d 'When to colour'
complete -c backfill -n '__fish_seen_subcommand_from show' -l json -r -F -d 'Prints an object for each task instance of this report, in place of a grid'
complete -c backfill -n '__fish_seen_subcommand_from page' -l states-only -d 'Leaves the report out of the page'
complete -c backfill -n '__fish_seen_subcommand_from page' -l journal -r -F -d 'The journal whose times the page has'
complete -c backfill -n '__fish_seen_subcommand_from explain' -l run -x -d 'The logical date of the run'
complete -c backfill -n '__fish_seen_subcommand_from explain' -l task -x -d 'The task; without it the run is explained'
complete -c backfill -n '__fish_seen_subcommand_from explain' -l index -x -d 'The map index of one instance of an expanded task'
"#;
