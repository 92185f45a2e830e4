use std::alloc::Global;
use std::test::Fail;
use up_text::{read_journals, write_journals};
use up_words::ReadFault;

/// What a pager tells, which no script's line does yet, and each reply that no journal of one has.
const TOLD: &[u8] = b"pagerd-journal 1
journal s 2 4 trap 1 64 image
0 1 18446744073709551615 fetched 1 failed -> noted
1 1 0 fetched 0 ok -> noted
2 1 0 copied 0 65536 -> noted
3 1 0 stored 2147483648 ok -> noted
4 1 0 stored 1 failed -> noted
5 1 0 flushed ok -> noted
6 1 0 flushed failed -> noted
7 1 0 busy 65536 0 1 -> noted
end 8
journal b 0 0 free 1 1 -
end 0
done
";

fn written_again(alloc: Global, text: &[u8]) -> Result<Vec<u8>, ReadFault> {
    let journals = read_journals(alloc, text)?;
    let mut out = Vec::new(alloc);
    write_journals(&journals, &mut out)?;
    Ok(out)
}

#[test]
fn a_text_is_written_as_it_was_read(rt: HostRuntime) -> Result<(), Fail> {
    let again = written_again(rt.alloc(), TOLD)
        .ok()
        .ok_or("a journal text")?;
    assert!(rt; again.as_slice() == TOLD);
    Ok(())
}
