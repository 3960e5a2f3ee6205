//! Tasks by their names, which rows have: a task has a line width or options, which no constant has.

use escpos_command::LineWidth;
use escpos_jobs::task::Task;
use escpos_test_jobs::{
    check_task, draw_task, encode_task, raw_check_task, raw_encode_task, raw_render_task,
    render_task, render_text_task,
};

/// The name of a task: what the program is asked for by that word alone, and by `--raw` or `--text` after it.
#[derive(Clone, Copy)]
pub enum Named {
    Check,
    RawCheck,
    Render,
    RawRender,
    RenderText,
    Draw,
    Encode,
    RawEncode,
    Image,
    Play,
}

/// The task of a name.
pub fn task(named: Named) -> Task {
    match named {
        Named::Check => check_task(),
        Named::RawCheck => raw_check_task(),
        Named::Render => render_task(),
        Named::RawRender => raw_render_task(),
        Named::RenderText => render_text_task(),
        Named::Draw => draw_task(),
        Named::Encode => encode_task(),
        Named::RawEncode => raw_encode_task(),
        Named::Image => image_task(),
        Named::Play => Task::Play,
    }
}

fn image_task() -> Task {
    Task::Image {
        width: LineWidth::usual(),
        threshold: None,
    }
}
