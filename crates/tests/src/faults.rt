//! The texts of faults, of which no clause speaks; runs over sinks whose flush fails, which the program's never do; and
//! a file that the system does not have.
use command::{End, OpenFault, open_file};
use filter::{RunFault, Status, run};
use labelcore::{FailAt, Format, Level, MemSink, MemSource, Options};
use std::alloc::Global;
use std::test::Fail;

/// Whether a fault is shown as this text.
fn shows(alloc: Global, fault: RunFault, text: &str) -> bool {
    match format!(in alloc; "{fault}") {
        Ok(shown) => shown.as_str() == text,
        Err(_) => false,
    }
}

#[test]
fn shows_faults(rt: HostRuntime) -> Result<(), Fail> {
    let mut compared: u32 = 0;
    for (fault, text) in [
        (RunFault::Read, "read failed"),
        (RunFault::WriteOut, "write failed"),
        (RunFault::WriteMessages, "message write failed"),
        (RunFault::Spent, "filter is spent"),
    ] {
        assert!(rt; shows(rt.alloc(), fault, text));
        compared = compared.saturating_add(1);
    }
    println!(rt; "compared {compared} texts")?;
    Ok(())
}

/// The result of a run over a label and a refusal, what each sink holds after it, and its calls.
#[derive(Drop)]
struct Ended {
    result: Result<Status, RunFault>,
    images: usize,
    messages: usize,
    image_calls: u64,
    message_calls: u64,
}

/// Runs over a label and a refusal, where the calls of these numbers fail, of the images and of the messages.
fn ran(options: &Options, image_call: u64, message_call: u64) -> Ended {
    let mut source = MemSource::new(b"ean8 7351353\npdf x\n", 1, false);
    let mut images: FailAt<MemSink<91>> = FailAt::new(MemSink::new(7, 91), image_call);
    let mut messages: FailAt<MemSink<26>> = FailAt::new(MemSink::new(7, 26), message_call);
    let result = run(*options, &mut source, &mut images, &mut messages);
    Ended {
        result,
        images: images.device().bytes().len(),
        messages: messages.device().bytes().len(),
        image_calls: images.calls(),
        message_calls: messages.calls(),
    }
}

/// The last call of each sink is its flush. Where that of the images fails, the messages are not flushed.
#[test]
fn flushes_fail(rt: HostRuntime) {
    let Some(options) = Options::new(Format::Pbm, 1, 1, Level::M, 1, None, false) else {
        panic!(rt; "these are in their ranges");
    };
    let right = ran(&options, 0, 0);
    assert!(rt;
        (right.result == Ok(Status::Refused)) & (right.images == 91) & (right.messages == 26)
    );
    let first = ran(&options, right.image_calls, 0);
    assert!(rt;
        (first.result == Err(RunFault::WriteOut)) & (first.images == 91) & (first.messages == 26)
    );
    assert!(rt; first.message_calls.saturating_add(1) == right.message_calls);
    let second = ran(&options, 0, right.message_calls);
    assert!(rt; (second.result == Err(RunFault::WriteMessages)) & (second.messages == 26));
    assert!(rt;
        (second.image_calls == right.image_calls) & (second.message_calls == right.message_calls)
    );
}

#[test]
fn no_file(rt: HostRuntime) {
    match open_file(&rt, rt.alloc(), "no-such-file") {
        Ok(_) => panic!(rt; "there is none"),
        Err(fault) => assert!(rt; fault == OpenFault::NoFile),
    }
    assert!(rt; End::NoFile.status() == 3);
    assert!(rt; End::NoFile.line() == "labels: cannot open file\n");
}
