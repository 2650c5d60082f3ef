//! Texts with their answers, with ample memory.

use ms_job::{Job, JobFault, SchedFault, parse, schedule};
use std::test::Fail;

/// Whether a text is answered so: its fault, or none.
fn answers(job: &Result<Job, JobFault>, fault: Option<JobFault>) -> bool {
    match job {
        Ok(_) => fault.is_none(),
        Err(e) => fault == Some(*e),
    }
}

#[test]
fn a_job_is_read(rt: HostRuntime) -> Result<(), Fail> {
    let job = parse(
        rt.alloc(),
        b"# two tasks\r\nmodule m m.wat\n\ntask m  r\ntask m f\nschedule s\nbudget 007",
    )?;
    assert_eq!(rt; job.modules.len(), 1);
    assert_eq!(rt; job.tasks.len(), 2);
    assert_eq!(rt; job.turns, 1);
    assert_eq!(rt; job.budget, 7);
    assert_eq!(rt; job.memory, 1_048_576);
    Ok(())
}

#[test]
fn first_faults(rt: HostRuntime) -> Result<(), Fail> {
    let table: [(&[u8], Option<JobFault>); 14] = [
        (b"", Some(JobFault::NoTask)),
        (b"module m f", Some(JobFault::NoTask)),
        (b"module m f\ntask m e\n", None),
        (b"module m f\r\ntask m e\r", None),
        (b"task m e\nmodule m f\n", Some(JobFault::Line { n: 1 })),
        (b"module m f\nmodule m g\n", Some(JobFault::Line { n: 2 })),
        (b"module env f", Some(JobFault::Line { n: 1 })),
        (b"# \xFF", Some(JobFault::Line { n: 1 })),
        (b"\n\n turns 1", Some(JobFault::Line { n: 3 })),
        (b"turns 1 ", Some(JobFault::Line { n: 1 })),
        (b"turns 1\nschedule s", Some(JobFault::Line { n: 2 })),
        (b"turns 0001000000\nturns 2", Some(JobFault::Line { n: 2 })),
        (b"budget 1000000000001", Some(JobFault::Line { n: 1 })),
        (
            b"memory 18446744073709551632",
            Some(JobFault::Line { n: 1 }),
        ),
    ];
    for (text, fault) in table {
        assert!(rt; answers(&parse(rt.alloc(), text), fault), "{text:?}");
    }
    Ok(())
}

#[test]
fn schedules(rt: HostRuntime) -> Result<(), Fail> {
    let numbers = schedule(rt.alloc(), b" 0 00\r\n4294967295\n\n7")?;
    assert_eq!(rt; numbers.as_slice(), [0, 0, 4_294_967_295, 7].as_slice());
    let table: [(&[u8], usize); 4] = [
        (b"0 4294967296", 2),
        (b"1\n\n-1", 3),
        (b"5 1\r", 2),
        (b"1\r2", 0),
    ];
    for (text, place) in table {
        let answer = schedule(rt.alloc(), text);
        assert!(rt;
            matches!(answer, Err(SchedFault::At { at }) if at == place),
            "{text:?}"
        );
    }
    Ok(())
}
