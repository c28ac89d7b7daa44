// What words give to a command.
use crate::cases::Log;
use tx_commands::{
    AuditRequest, ChangeRequest, CheckRequest, Command, MendRequest, OrderRequest, PageRequest,
    RunRequest, TellingRequest,
};
use tx_plan::Limits;

/// The limits that a command has.
fn limits_of(command: &Command) -> Option<Limits> {
    match command {
        Command::Run(RunRequest { checked, .. })
        | Command::RunTelling(
            TellingRequest {
                run: RunRequest { checked, .. },
                ..
            },
        ) => {
            let (_, limits) = checked.as_ref()?;
            Some(*limits)
        }
        Command::Check(CheckRequest { limits, .. })
        | Command::Audit(AuditRequest { limits, .. })
        | Command::Change(ChangeRequest { limits, .. })
        | Command::Order(OrderRequest { limits, .. })
        | Command::Mend(MendRequest { limits, .. })
        | Command::Page(PageRequest { limits, .. }) => Some(*limits),
        _ => None,
    }
}

/// Tells a word that is given, if one is.
fn tell_word(what: &str, word: Option<&str>, log: &Log) {
    if let Some(word) = word {
        log.tell(what, word);
    }
}

/// Tells an option without a word, where it is given.
fn tell_flag(what: &str, is_given: bool, log: &Log) {
    if is_given {
        log.tell("with", what);
    }
}

/// Tells which calls a command is about.
fn tell_calls(exchange: &str, code: &str, down: Option<&str>, log: &Log) {
    log.tell("exchange", exchange);
    log.tell("code", code);
    tell_word("down", down, log);
}

/// Tells whether the named risks alone are tried, if there are some.
fn tell_risks(risks: &Option<(String, bool)>, log: &Log) {
    if let Some((_, alone)) = risks {
        tell_flag("risks alone", *alone, log);
    }
}

/// Tells the stage of an order, and where one was stopped.
fn tell_order(request: &OrderRequest, log: &Log) {
    if let Some(stage) = request.stage {
        log.tell_number("stage", u64::from(stage));
    }
    if let Some(stopped) = request.stopped {
        log.tell_number("stopped in", u64::from(stopped.stage));
        log.tell_number("for spare", u64::from(stopped.limits.spare));
        tell_flag("back", stopped.back, log);
    }
}

/// Tells what a command is given beside its limits and its files.
fn tell_more(command: &Command, log: &Log) {
    match command {
        Command::RunTelling(request) => {
            tell_flag("strict", request.strict, log);
            tell_flag("echo", request.echo, log);
            tell_flag("summary", request.summary, log);
        }
        Command::Order(request) => tell_order(request, log),
        Command::Survive(request) => tell_risks(&request.risks, log),
        Command::Compare(request) => tell_risks(&request.risks, log),
        Command::Page(request) => {
            tell_word("code", request.code.as_deref(), log);
            tell_flag("all codes", request.all_codes, log);
            tell_flag("by exchange", request.by_exchange, log);
        }
        Command::Trace(request) => {
            let down = request.down.as_deref();
            tell_calls(&request.exchange, &request.code, down, log)
        }
        Command::Fill(request) => {
            let down = request.down.as_deref();
            tell_calls(&request.exchange, &request.code, down, log)
        }
        Command::TraceChanges(request) => {
            if let Some((exchange, code)) = &request.calls {
                tell_calls(exchange, code, None, log)
            }
        }
        Command::TraceThrough(request) => {
            log.tell("through", &request.name);
            tell_word("down", request.down.as_deref(), log)
        }
        Command::Explain(request) => tell_word("line", request.line.as_deref(), log),
        _ => {}
    }
}

/// Tells what a command is given by words: its limits, what else there is, and the files that it
/// reads and makes, in order.
pub(crate) fn tell_command(command: &Command, log: &Log) {
    if let Some(limits) = limits_of(command) {
        log.tell_number("limit", u64::from(limits.limit));
        log.tell_number("spare", u64::from(limits.spare));
    }
    tell_more(command, log);
    let files = command.files();
    for name in files.reads {
        tell_word("reads", name, log);
    }
    tell_word("makes the plan", files.plan, log);
    tell_word("makes the certificate", files.cert, log);
    tell_word("makes the script", files.script, log);
    tell_word("makes the page", files.page, log);
}
