// Tests of the command book on examples, in a crate of their own.
#![tactic(auto)]

#[cfg(test)]
mod tests {
    use book::answer::answer_at;
    use book::reader::read;
    use book::survey::survey;
    use book::types::{Damage, Fault, Layer, Refusal};
    use book_report::report;
    use calls::layout::fields_of;
    use lines::line::Head;
    use lines::{bad_line, end_line};
    use std::alloc::{AllocError, Global};
    use std::process::Abort;
    use std::test::Fail;

    const LONG: Fault = Fault::TooLarge;

    const LENGTH: Fault = Fault::BadLength;

    const KIND: Fault = Fault::UnknownKind;

    const COUNT: Fault = Fault::WrongFieldCount;

    fn ends(rt: &impl Abort, book: &[u8]) {
        assert_eq!(rt; survey(book).ending, Ok(book.len()));
    }

    fn bad(rt: &impl Abort, book: &[u8], place: usize, fault: Fault) {
        assert_eq!(rt; survey(book).ending, Err(Damage { place, fault }));
    }

    #[test]
    fn lengths(rt: HostRuntime) {
        ends(&rt, &[]);
        bad(&rt, &[8], 0, LENGTH);
        bad(&rt, &[8, 0, 1, 0, 0], 0, LENGTH);
        bad(&rt, &[6, 0, 1, 0, 0, 0], 0, COUNT);
        bad(&rt, &[8, 0, 1, 0, 0, 0], 0, LENGTH);
        bad(&rt, &[8, 0, 1, 0, 0, 0, 0], 0, LENGTH);
        ends(&rt, &[8, 0, 1, 0, 0, 0, 0, 0]);
        bad(&rt, &[8, 0, 1, 0, 0, 0, 0, 0, 0], 8, LENGTH);
        bad(&rt, &[5, 0, 1, 0, 0, 0, 0, 0], 0, LENGTH);
        bad(&rt, &[9, 0, 1, 0, 0, 0, 0, 0, 0], 0, COUNT);
        bad(&rt, &[0, 8, 1, 0, 0, 0, 0, 0], 0, LENGTH);
    }

    #[test]
    fn kinds_outside(rt: HostRuntime) {
        bad(&rt, &[8, 0, 0, 0, 0, 0, 0, 0], 0, KIND);
        bad(&rt, &[8, 0, 31, 0, 0, 0, 0, 0], 0, KIND);
        bad(&rt, &[8, 0, 1, 1, 0, 0, 0, 0], 0, KIND);
        bad(&rt, &[7, 0, 31, 0, 0, 0, 0], 0, KIND);
        bad(&rt, &[5, 0, 31, 0, 0, 0], 0, LENGTH);
        bad(&rt, &[8, 0, 5, 0, 0, 0, 0, 0], 0, COUNT);
    }

    // A record of each kind, with fields that no kernel would accept.
    #[test]
    fn each_kind(rt: HostRuntime) -> Result<(), Fail> {
        for kind in 1..=30u8 {
            let size = 6 + 2 * fields_of(kind as u16);
            let mut book = [0xabu8; 14];
            book[0] = size as u8;
            book[1] = 0;
            book[2] = kind;
            book[3] = 0;
            ends(&rt, &book[0..size]);
            bad(&rt, &book[0..size - 1], 0, LENGTH);
            let record = read(&book, 0)?.ok_or("no record")?;
            let command = record.command().ok_or("no command")?;
            assert_eq!(rt; command.encode().kind(), kind as u16);
            for word in command.encode().fields() {
                assert_eq!(rt; *word, 0xabab);
            }
        }
        Ok(())
    }

    // Records of eight bytes, one after another, of which the last may be cut short.
    fn users(heap: Global, size: usize) -> Result<Vec<u8>, AllocError> {
        let mut book = Vec::new(heap);
        for i in 0..size {
            book.push(match i % 8 {
                0 => 8,
                2 => 1,
                _ => 0,
            })?;
        }
        Ok(book)
    }

    // Books up to the largest size and past it.
    #[test]
    fn largest(rt: HostRuntime) -> Result<(), Fail> {
        ends(&rt, users(rt.alloc(), 65_528)?.as_slice());
        bad(&rt, users(rt.alloc(), 65_535)?.as_slice(), 65_528, LENGTH);
        let mut book = users(rt.alloc(), 65_536)?;
        ends(&rt, book.as_slice());
        assert_eq!(rt; survey(book.as_slice()).tally.directory, 8_192);
        assert!(rt; answer_at(book.as_mut_slice(), 65_528, Ok(())));
        let mut over = users(rt.alloc(), 65_537)?;
        bad(&rt, over.as_slice(), 0, LONG);
        assert!(rt; !answer_at(over.as_mut_slice(), 0, Ok(())));
        Ok(())
    }

    #[test]
    fn largest_of_zeros(rt: HostRuntime) -> Result<(), Fail> {
        bad(&rt, vec![in rt.alloc(); 0; 65_535]?.as_slice(), 0, LENGTH);
        bad(&rt, vec![in rt.alloc(); 0; 65_536]?.as_slice(), 0, LENGTH);
        bad(&rt, vec![in rt.alloc(); 0; 65_537]?.as_slice(), 0, LONG);
        Ok(())
    }

    // Bytes that follow no pattern: read to some place, answered, and read to the same place again.
    #[test]
    fn scrambled(rt: HostRuntime) {
        let mut state = 1u32;
        for _ in 0..64 {
            let mut book = [0u8; 256];
            for byte in book.iter_mut() {
                state = state.wrapping_mul(1_664_525).wrapping_add(1_013_904_223);
                *byte = (state / 65_536 % 16) as u8;
            }
            book[1] = 0;
            book[3] = 0;
            let before = survey(&book).ending;
            let number = 9;
            let layer = Layer::Kernel;
            answer_at(&mut book, 0, Err(Refusal { layer, number }));
            assert_eq!(rt; survey(&book).ending, before);
        }
    }

    #[test]
    fn past_the_end(rt: HostRuntime) {
        let mut book = [8, 0, 1, 0, 255, 255, 0, 0];
        assert!(rt; matches!(read(&book, 8), Ok(None)));
        assert!(rt; matches!(read(&book, usize::MAX), Ok(None)));
        assert!(rt; !answer_at(&mut book, usize::MAX, Ok(())));
        assert!(rt; !answer_at(&mut book, 4, Ok(())));
        assert_eq!(rt; book, [8, 0, 1, 0, 255, 255, 0, 0]);
    }

    // The worked example of the documents, answered as a kernel would.
    #[test]
    fn worked_example(rt: HostRuntime) -> Result<(), Fail> {
        let mut book = [
            8, 0, 1, 0, 255, 255, 0, 0, 8, 0, 1, 0, 255, 255, 0, 0, 8, 0, 1, 0, 255,
        ];
        let refused = Err(Refusal {
            layer: Layer::Kernel,
            number: 9,
        });
        assert!(rt; answer_at(&mut book, 0, Ok(())));
        assert!(rt; answer_at(&mut book, 8, refused));
        assert!(rt; !answer_at(&mut book, 16, refused));
        assert_eq!(rt;
            book,
            [
                8, 0, 1, 0, 0, 0, 0, 0, 8, 0, 1, 0, 9, 2, 0, 0, 8, 0, 1, 0, 255,
            ]
        );
        assert_eq!(rt;
            Head { place: 0, kind: 1 }.answer_line(Ok(())).as_bytes(),
            b"0 1 ok\n".as_slice()
        );
        assert_eq!(rt;
            Head { place: 8, kind: 1 }.answer_line(refused).as_bytes(),
            b"8 1 no kernel 9\n".as_slice()
        );
        let damage = Damage {
            place: 16,
            fault: LENGTH,
        };
        assert_eq!(rt; bad_line(damage).as_bytes(), b"bad 16 21\n".as_slice());
        assert_eq!(rt; end_line(65_536).as_bytes(), b"end 65536\n".as_slice());
        let text = report(rt.alloc(), &book[16..21])?;
        assert_eq!(rt;
            text.as_slice(),
            b"directory 0\nconsent 0\nsession 0\nquestion 0\nThe record at byte 0 is cut short: only 5 of at least 6 bytes remain.\nbad 0 21\n".as_slice()
        );
        Ok(())
    }
}
