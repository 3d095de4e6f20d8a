//! The examples of the crates' pages (`crates/*/README.md`). `scripts/pages.py` compares them with the pages.
use device::{Buffered, Sink, write_whole};
use filter::{Status, run};
use gf256::{Generator, mul, pow_alpha};
use labelcore::{Fault, Format, Item, Level, LineBuf, Options, Scratch, Symbology, parse};
use linear::{Ean8, Linear, Row};
use linear_reading::LinearReading;
use picture::{Bars, Framed, Scaled, write_pbm};
use qrdata::{Words, choose, codewords};
use qrmatrix::Matrix;
use reading::{
    BitRegion, Bits, Dots, labels_are_read, modules_are_read, read, read_modules,
    readings_are_alone,
};
use testing::{FailAt, MemSink, MemSource};

#[test]
fn page_of_device(rt: HostRuntime) {
    let mut sink: Buffered<MemSink<16>> = Buffered::new(MemSink::new(4, 16));
    assert!(rt; write_whole(b"ean8 7351353\n", &mut sink).is_ok());
    assert!(rt; sink.sink().bytes().is_empty() && sink.buffered() == b"ean8 7351353\n".as_slice());
    assert!(rt; sink.flush().is_ok());
    assert!(rt; sink.buffered().is_empty() && sink.sink().bytes() == b"ean8 7351353\n".as_slice());
}

#[test]
fn page_of_testing(rt: HostRuntime) {
    let mut sink: FailAt<MemSink<16>> = FailAt::new(MemSink::new(4, 16), 2);
    assert!(rt; write_whole(b"ean8 7351353\n", &mut sink).is_err());
    assert!(rt; sink.calls() == 2 && sink.device().bytes() == b"ean8".as_slice());
}

#[test]
fn page_of_linear(rt: HostRuntime) {
    let mut row = Row::new();
    assert!(rt; Ean8::encode(b"7351353", &mut row).is_ok());
    assert!(rt; row.len() == 67);
    let fault = Fault::WrongCheckDigit { given: 0, right: 7 };
    assert!(rt; Ean8::encode(b"73513530", &mut row) == Err(fault));
    assert!(rt; row.is_empty());
    assert!(rt; Ean8::QUIET_LEFT == 7);
}

#[test]
fn page_of_linear_reading(rt: HostRuntime) {
    let mut row = Row::new();
    assert!(rt; Ean8::encode(b"7351353", &mut row).is_ok());
    assert!(rt; Ean8::read(&row).is_some_and(|full| full.as_slice() == b"73513537".as_slice()));
}

#[test]
fn page_of_reading(rt: HostRuntime) {
    let region = BitRegion {
        stride: 11,
        left: 0,
        top: 0,
        width: 81,
        height: 1,
        dark: true,
    };
    let Some(dots) = Bits::new(region, &[1, 93, 189, 98, 101, 80, 167, 66, 137, 64, 0]) else {
        panic!(rt; "the region is within them");
    };
    assert!(rt; read(Symbology::Qr, &dots, 1).is_none());
    assert!(rt;
        reading::read_any(&dots).is_some_and(|reading| reading.data.as_slice()
            == b"73513537".as_slice())
    );
    assert!(rt;
        Dots::new(b'0', b'1', 9, 9, &[b'0'; 81]).is_some_and(|dots| reading::read_any(
            &dots
        ).is_none())
    );
    assert!(rt;
        Dots::new(0, 1, 9, 9, &[0; 81]).is_some_and(|modules| read_modules(
            Symbology::Qr,
            &modules
        ).is_none())
    );
    readings_are_alone();
    modules_are_read();
    labels_are_read(&Options::default(), Symbology::Qr, b"1");
}

#[test]
fn page_of_gf256(rt: HostRuntime) {
    let block = [32, 91, 11, 120, 209, 114, 220, 77, 67, 64, 236, 17, 236];
    let mut parity = [0; 13];
    Generator::new(13).parity(&block, &mut parity);
    assert!(rt; parity == [168, 72, 22, 82, 217, 54, 156, 0, 46, 15, 180, 122, 16]);
    assert!(rt; mul(2, 128) == 29 && pow_alpha(8) == 29);
}

#[test]
fn page_of_qrdata(rt: HostRuntime) {
    let mut options = Options::default();
    options.label = options.label.with_level(Level::Q);
    let plan = match choose(&options, b"HELLO WORLD") {
        Ok(plan) => plan,
        Err(_) => panic!(rt; "it does not fit"),
    };
    assert!(rt; plan.version().number() == 1 && plan.bits() == 74);
    let mut symbol = Words::new();
    codewords(&plan, b"HELLO WORLD", &mut symbol);
    assert!(rt; symbol.len() == 26 && symbol[0] == 32 && symbol[1] == 91);
}

#[test]
fn page_of_qrmatrix(rt: HostRuntime) {
    let plan = match choose(&Options::default(), b"01234567") {
        Ok(plan) => plan,
        Err(_) => panic!(rt; "it does not fit"),
    };
    let mut symbol = Words::new();
    codewords(&plan, b"01234567", &mut symbol);
    let matrix = Matrix::draw(plan.version(), plan.level(), None, &symbol);
    assert!(rt; matrix.side() == 21 && matrix.mask() == 0 && matrix.penalty() == 297);
}

#[test]
fn page_of_qr_reading(rt: HostRuntime) {
    let mut options = Options::default();
    options.label = options.label.with_level(Level::Q);
    let plan = match choose(&options, b"HELLO WORLD") {
        Ok(plan) => plan,
        Err(_) => panic!(rt; "it does not fit"),
    };
    let mut symbol = Words::new();
    codewords(&plan, b"HELLO WORLD", &mut symbol);
    let matrix = Matrix::draw(plan.version(), plan.level(), None, &symbol);
    let data = qr_reading::read(&matrix.rows()[..matrix.side()]);
    assert!(rt; data.is_some_and(|data| data.as_slice() == b"HELLO WORLD".as_slice()));
}

#[test]
fn page_of_picture(rt: HostRuntime) {
    let row = [true, false, true];
    let picture = Scaled::new(Framed::new(Bars::new(&row, 1), 1, 1, 0, 0), 2);
    let mut sink = MemSink::<64>::new(64, 64);
    assert!(rt; write_pbm(&picture, &mut sink).is_ok());
    assert!(rt; sink.bytes() == b"P1\n10 2\n0011001100\n0011001100\n".as_slice());
}

#[test]
fn page_of_labelcore(rt: HostRuntime) {
    let Options { run, label } = Options::default();
    let run = run.with_format(Format::Ascii).with_escapes(true);
    let run = run.with_scale(4).expect(&rt, "4 is a scale");
    let label = label.with_height(30).expect(&rt, "30 is a height");
    let options = Options { run, label };
    let mut line = LineBuf::new();
    line.extend(b"ean8 7351353");
    let mut scratch = Scratch::new();
    let data = b"7351353".as_slice();
    assert!(rt; parse(&options, &line, &mut scratch) == Item::Draw(Symbology::Ean8, options, data));
    line.clear();
    line.push(b'x');
    assert!(rt; parse(&options, &line, &mut scratch) == Item::Refuse(Fault::UnknownSymbology));
}

#[test]
fn page_of_filter(rt: HostRuntime) {
    let Some(options) = Options::new(Format::Pbm, 1, 1, Level::M, 1, None, false) else {
        panic!(rt; "these are in their ranges");
    };
    let mut source = MemSource::new(b"ean8 7351353\npdf x\n", 4096, false);
    let mut images: MemSink<512> = MemSink::new(512, 512);
    let mut messages: MemSink<64> = MemSink::new(64, 64);
    let result = run(options, &mut source, &mut images, &mut messages);
    assert!(rt; result == Ok(Status::Refused));
    assert!(rt; images.bytes().len() == 91);
    assert!(rt; messages.bytes() == b"line 2: unknown symbology\n".as_slice());
}
