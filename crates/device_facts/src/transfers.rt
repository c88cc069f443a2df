// What is done to the SPI.
use crate::answers::Answer;
use crate::numbers::{byte, cycle};
use crate::saved::saved_spi;
use serial_ports::{Spi, SpiReg};

fn reg(name: &str) -> Option<SpiReg> {
    match name {
        "spcr" => Some(SpiReg::Control),
        "spsr" => Some(SpiReg::Status),
        "spdr" => Some(SpiReg::Spdr),
        _ => None,
    }
}

// The end of the transfer, where one runs, by the byte that it brings.
fn end(port: &mut Spi, miso: u8) -> Answer {
    match port.sending() {
        Some(_) => Answer::Byte(port.finish(miso)),
        None => Answer::Nothing,
    }
}

// The entry to the vector, where the interrupt is asked for.
fn enter(port: &mut Spi) -> Answer {
    let asks = port.line();
    if asks {
        port.clear_spif();
    }
    Answer::Truth(asks)
}

/// What a line does to the SPI, and its answer; `None` where it is none of the forms.
pub fn do_spi(port: &mut Spi, words: &[&str]) -> Option<Answer> {
    match words {
        ["new"] => {
            *port = Spi::new();
            Some(Answer::Done)
        }
        ["put", at, name, b] => Some(Answer::of_put(port.put(cycle(at)?, reg(name)?, byte(b)?))),
        ["get", name] => Some(Answer::Byte(port.get(reg(name)?))),
        ["ends"] => Some(Answer::perhaps(port.done_at())),
        ["sending"] => Some(Answer::perhaps_byte(port.sending())),
        ["end", miso] => Some(end(port, byte(miso)?)),
        ["enter"] => Some(enter(port)),
        words => saved_spi(port, words),
    }
}
