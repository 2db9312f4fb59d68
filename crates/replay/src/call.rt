// A line of the input: a call with its fields, or a line that is passed over.
use super::input::{End, Input};
use super::stop::Stop;
use settings::{Settings, TweeningMethod};
use std::io::Read;

// A line: each case has a meaning of its own. An empty one and a comment are passed over.
#[derive(Drop)]
pub enum Line {
    Call(Call),
    PassedOver,
    End,
}

// A call: each case has a meaning of its own. The words of an update and the bytes of a mean are the input's lists.
#[derive(Drop)]
pub enum Call {
    Open(Settings),
    Update {
        delta: f64,
        seconds: f64,
        length: u64,
    },
    Issue {
        handle: u32,
    },
    Report,
    Session,
    Order(i16, i16),
    Stamp {
        seconds: f64,
        timestep: f64,
    },
    Mean {
        needed: u32,
        rate: f64,
        length: u64,
    },
    Span {
        span: u64,
        p: u32,
        q: u32,
    },
}

// Reads the next line. A wrong field is read to its end, and a read that failed in the line counts before what is wrong there.
pub(crate) fn read_line<R: Read + Drop>(input: &mut Input<R>) -> Result<Line, Stop> {
    let line = read_fields(input);
    if let Err(Stop::BadCall) = &line {
        input.skip_field();
    }
    input.outcome()?;
    line
}

// Reads the next line up to the first field that is wrong.
fn read_fields<R: Read + Drop>(input: &mut Input<R>) -> Result<Line, Stop> {
    let name = input.name()?;
    match name.as_slice() {
        [b'#', ..] => {
            input.skip_line()?;
            Ok(Line::PassedOver)
        }
        [] => match input.end() {
            Some(End::Line) => Ok(Line::PassedOver),
            Some(End::Input) => Ok(Line::End),
            // a space before any name
            _ => Err(Stop::BadCall),
        },
        name => {
            let call = read_call(name, input)?;
            input.end_line()?;
            Ok(Line::Call(call))
        }
    }
}

// Reads the fields of the call of a name.
fn read_call<R: Read + Drop>(name: &[u8], input: &mut Input<R>) -> Result<Call, Stop> {
    match name {
        b"open" => read_open(input),
        b"update" => read_update(input),
        b"issue" => read_issue(input),
        b"report" => Ok(Call::Report),
        b"session" => Ok(Call::Session),
        b"order" => read_order(input),
        b"stamp" => read_stamp(input),
        b"mean" => read_mean(input),
        b"span" => read_span(input),
        _ => Err(Stop::BadCall),
    }
}

fn read_open<R: Read + Drop>(input: &mut Input<R>) -> Result<Call, Stop> {
    Ok(Call::Open(Settings {
        timestep: input.float()?,
        blend: input.float()?,
        lag: input.float()?,
        period: input.float()?,
        deviation: input.float()?,
        skip: input.float()?,
        max: input.float()?,
        needed: input.decimal_u32()?,
        rate: input.float()?,
        m: input.decimal_u32()?,
        method: TweeningMethod::from(input.decimal_u32()?),
    }))
}

fn read_update<R: Read + Drop>(input: &mut Input<R>) -> Result<Call, Stop> {
    let call = Call::Update {
        delta: input.float()?,
        seconds: input.float()?,
        length: input.decimal()?,
    };
    input.read_inbox()?;
    Ok(call)
}

fn read_issue<R: Read + Drop>(input: &mut Input<R>) -> Result<Call, Stop> {
    Ok(Call::Issue {
        handle: input.decimal_u32()?,
    })
}

fn read_order<R: Read + Drop>(input: &mut Input<R>) -> Result<Call, Stop> {
    Ok(Call::Order(input.stamp()?, input.stamp()?))
}

fn read_stamp<R: Read + Drop>(input: &mut Input<R>) -> Result<Call, Stop> {
    Ok(Call::Stamp {
        seconds: input.float()?,
        timestep: input.float()?,
    })
}

fn read_mean<R: Read + Drop>(input: &mut Input<R>) -> Result<Call, Stop> {
    let call = Call::Mean {
        needed: input.decimal_u32()?,
        rate: input.float()?,
        length: input.decimal()?,
    };
    input.read_samples()?;
    Ok(call)
}

fn read_span<R: Read + Drop>(input: &mut Input<R>) -> Result<Call, Stop> {
    Ok(Call::Span {
        span: input.decimal()?,
        p: input.decimal_u32()?,
        q: input.decimal_u32()?,
    })
}
