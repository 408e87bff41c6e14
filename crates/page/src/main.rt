// Answers one job over document 01's sizes: the text of the file that its argument names, or of standard input where it has none.
#![tactic(auto)]

fn main(rt: HostRuntime) {
    let mut text = io::large_buffer();
    if let Some(count) = job_io::read_job(&rt, &mut text) {
        let answer = job_tables::answer(&text[..count]);
        job_io::write(&rt, answer);
    }
}
