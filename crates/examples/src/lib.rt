//! The worked examples of the formats and of the sources, as tests.
#![tactic(auto)]

#[cfg(test)]
mod sources;

#[cfg(test)]
mod tests {
    use faults::Fault;
    use lasso::{Instant, Shape, State};
    use numbers::{Reader, write_number};
    use record::{read_record, write_record};
    use std::process::Abort;
    use std::test::Fail;
    use trace::{Trace, blank};

    // Two states, the second looping on itself; one place, not held and then held.
    const TWO_STATES: [u8; 7] = [1, 1, 2, 1, 0, 1, 0];

    fn two_states() -> Option<Trace> {
        let mut held = blank();
        held[1][0] = true;
        Trace::new(1, Shape::new(2, State(1))?, held)
    }

    fn check_refused(
        rt: &impl Abort,
        res: Result<(), Fault>,
        number: u8,
        place: usize,
    ) -> Result<(), Fail> {
        match res {
            Ok(()) => Err(Fail::new("accepted")),
            Err(fault) => {
                assert_eq!(rt; fault.number(), number);
                assert_eq!(rt; fault.place(), place);
                Ok(())
            }
        }
    }

    #[test]
    fn three_hundred_has_two_groups(rt: HostRuntime) -> Result<(), Fail> {
        let mut buffer = [9u8; 4];
        match write_number(300, &mut buffer) {
            Ok(len) => assert_eq!(rt; len, 2),
            Err(_) => return Err(Fail::new("no room")),
        }
        assert_eq!(rt; buffer, [0xac, 2, 9, 9]);
        let mut reader = Reader::new(&buffer);
        match reader.number() {
            Ok(number) => {
                assert_eq!(rt; number, 300);
                assert_eq!(rt; reader.position(), 2);
                Ok(())
            },
            Err(_) => Err(Fail::new("refused")),
        }
    }

    #[test]
    fn a_zero_group_is_not_shortest(rt: HostRuntime) -> Result<(), Fail> {
        let mut trace = Trace::fresh();
        check_refused(&rt, read_record(&[0x80, 0], &mut trace), 12, 0)?;
        assert_eq!(rt; trace.places(), 0);
        assert_eq!(rt; trace.states(), 1);
        Ok(())
    }

    #[test]
    fn two_states_are_written(rt: HostRuntime) -> Result<(), Fail> {
        let Some(trace) = two_states() else {
            return Err(Fail::new("no trace"));
        };
        let mut buffer = [7u8; 9];
        match write_record(&trace, &mut buffer) {
            Ok(len) => assert_eq!(rt; len, 7),
            Err(_) => return Err(Fail::new("no room")),
        }
        assert_eq!(rt; buffer, [1, 1, 2, 1, 0, 1, 0, 7, 7]);
        Ok(())
    }

    #[test]
    fn a_short_buffer_stays_as_it_is(rt: HostRuntime) -> Result<(), Fail> {
        let Some(trace) = two_states() else {
            return Err(Fail::new("no trace"));
        };
        let mut buffer = [7u8; 6];
        match write_record(&trace, &mut buffer) {
            Ok(_) => return Err(Fail::new("written")),
            Err(fault) => assert_eq!(rt; fault.number(), 24),
        }
        assert_eq!(rt; buffer, [7; 6]);
        Ok(())
    }

    #[test]
    fn two_states_are_read(rt: HostRuntime) -> Result<(), Fail> {
        let Some(expected) = two_states() else {
            return Err(Fail::new("no trace"));
        };
        let mut trace = Trace::fresh();
        match read_record(&TWO_STATES, &mut trace) {
            Ok(()) => assert!(rt; trace.same_behaviour(&expected)),
            Err(_) => return Err(Fail::new("refused")),
        }
        assert!(rt; !trace.held_at(0, Instant(0)));
        assert!(rt; trace.held_at(0, Instant(1)));
        assert!(rt; trace.held_at(0, Instant(1000)));
        Ok(())
    }

    #[test]
    fn a_loop_of_equal_states_is_refused(rt: HostRuntime) -> Result<(), Fail> {
        let mut trace = Trace::fresh();
        check_refused(&rt, read_record(&[1, 1, 2, 0, 0, 0], &mut trace), 17, 0)
    }
}
