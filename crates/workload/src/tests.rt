use super::*;
use std::test::Fail;

#[test]
fn what_was_read_prints_as_it_was(rt: HostRuntime) -> Result<(), Fail> {
    for text in [
        b"far 1\nclients 1\nservers 1\nslots 1\nhot 0\nput 0 a =x\nget 0 a\n".as_slice(),
        b"far 1\nclients 2\nservers 16\nslots 1024\nhot 65535\nget 1 a\nput 0 b =\n\
          del 1 0123456789abcdef\nadmit 0 a\nevict 3 b\nsnap 9999999999999999999\nstop 12\n\
          stop writereq 1\nstop admit 0\npicks 0 7 9999999999999999999\nrandom 5\n"
            .as_slice(),
    ] {
        let load = parse(rt.alloc(), text).ok().ok_or("not read")?;
        let printed = print(rt.alloc(), &load).ok().ok_or("not printed")?;
        assert_eq!(rt; printed.as_slice(), text);
    }
    Ok(())
}

#[test]
fn the_first_fault_decides(rt: HostRuntime) {
    for (text, fault) in [
        (b"".as_slice(), WorkFault::BadLine(1)),
        (b"far 1\nclients 1\n".as_slice(), WorkFault::BadLine(3)),
        (
            b"far 1\nclients 1\nservers 1\nslots 1025\nhot 0\n".as_slice(),
            WorkFault::TooLarge(Limit::Slots, 4),
        ),
        (
            b"far 1\nclients 1\nservers 1\nslots 1\nhot 0\nget 0 0123456789abcdefg\n".as_slice(),
            WorkFault::BadLine(6),
        ),
        (
            b"far 1\nclients 1\nservers 1\nslots 1\nhot 0\n\
              put 0 a =xxxxxxxxxxxxxxxxxxxxxxxxxxxxxxxxxxxxxxxxxxxxxxxxxxxxxxxxxxxxxxxxxxxxxxxxxxxxxxxxx\
              xxxxxxxxxxxxxxxxxxxxxxxxxxxxxxxxxxxxxxxxxxxxxxxxxxxxxxxxxxxxxxxxxxxxxxxxxxxxxxxxxxxxxxxxxx\
              xxxxxxxxxxxxxxxxxxxxxxxxxxxxxxxxxxxxxxxxxxxxxxxxxxxxxxxxxxxxxxxxxxxxxxxxxxxxxxxxxxxxxx\n"
                .as_slice(),
            WorkFault::TooLarge(Limit::Body, 6),
        ),
        (
            b"far 1\nclients 1\nservers 1\nslots 1\nhot 0\nget 1 a\n".as_slice(),
            WorkFault::BadLine(6),
        ),
        (
            b"far 1\nclients 1\nservers 1\nslots 1\nhot 0\nget 0 a".as_slice(),
            WorkFault::BadLine(6),
        ),
        (
            b"far 1\nclients 1\nservers 1\nslots 1\nhot 0\nrandom 1\nrandom 1\n".as_slice(),
            WorkFault::BadLine(7),
        ),
        (
            b"far 1\nclients 1\nservers 1\nslots 1\nhot 0\nstop hot 1\n".as_slice(),
            WorkFault::BadLine(6),
        ),
    ] {
        assert!(rt; matches!(parse(rt.alloc(), text), Err(found) if found == fault));
    }
}

#[test]
fn generated_work_and_its_picks(rt: HostRuntime) -> Result<(), Fail> {
    let load = generate(rt.alloc(), 7, 6).ok().ok_or("not generated")?;
    let printed = print(rt.alloc(), &load).ok().ok_or("not printed")?;
    assert!(rt;
        printed.as_slice()
            == b"far 1\nclients 16\nservers 4\nslots 256\nhot 4\nget 9 k1220\nput 12 k32 =v2\nput 3 k18 =v3\n\
              get 0 k53\nget 10 k22\nget 8 k6\nsnap 6\nstop 12\nsnap 18\nstop 24\nrandom 7\n"
                .as_slice()
    );
    Ok(())
}

#[test]
fn much_work_is_read_as_it_was_printed(rt: HostRuntime) -> Result<(), Fail> {
    let load = generate(rt.alloc(), 7, 50000).ok().ok_or("not generated")?;
    let printed = print(rt.alloc(), &load).ok().ok_or("not printed")?;
    let again = parse(rt.alloc(), &printed).ok().ok_or("not read")?;
    assert_eq!(rt; again.plan.ops.len(), 50000);
    let second = print(rt.alloc(), &again).ok().ok_or("not printed")?;
    assert!(rt; second.as_slice() == printed.as_slice());
    Ok(())
}

/// The first twenty draws of three start numbers, by another implementation of the generator.
const DRAWS: [(u64, [u64; 20]); 3] = [
    (
        7,
        [
            2442223337, 414063806, 2743600285, 3524868804, 2371632060, 1368306093, 671954468,
            3804052768, 577050371, 3328487688, 2891323500, 1331013586, 4058641856, 3679627213,
            2667227530, 97758645, 1300909050, 1247874432, 3892859953, 306414230,
        ],
    ),
    (
        0,
        [
            298703107, 4236525527, 336081875, 1056616254, 1060453275, 1616833669, 501767310,
            2864049166, 56572352, 2362354238, 616791217, 116872860, 2920106405, 1980021998,
            1017583790, 1069996065, 3975409057, 450705938, 3265891683, 1986817798,
        ],
    ),
    (
        9999999999999999999,
        [
            4077165616, 882470435, 2703290376, 744697708, 473318200, 4264532853, 2854586639,
            1668661019, 646116754, 3143710423, 1477295242, 2728553741, 2233222296, 3923390105,
            1366235239, 340825461, 2323791525, 3979561562, 1385024968, 3150405796,
        ],
    ),
];

#[test]
fn picks_are_the_draws_of_the_start_number(rt: HostRuntime) -> Result<(), Fail> {
    for (start, draws) in DRAWS {
        let load = generate(rt.alloc(), start, 0).ok().ok_or("not generated")?;
        let mut picker = Picker::new(&load);
        for draw in draws {
            assert_eq!(rt; picker.next(&load), draw);
        }
    }
    Ok(())
}
