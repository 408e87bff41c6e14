// Answers one job as `page` does, over larger sizes: the text of the file that its argument names, or of standard input where it has none.
#![tactic(auto)]

fn main(rt: HostRuntime) {
    let mut text = io::large_buffer();
    if let Some(count) = job_io::read_job(&rt, &mut text) {
        let answer = job_tables::large_answer(&text[..count]);
        job_io::write(&rt, answer);
    }
}
