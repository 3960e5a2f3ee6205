//! What the program is asked for by the name of a job alone, and by `--raw` after it: lines of the usual width, and the usual options.

use escpos_command::LineWidth;
use escpos_job_parts::form::Form;
use escpos_jobs::task::Task;
use escpos_receipt::ReceiptOptions;

/// `check`.
pub fn check_task() -> Task {
    Task::Check {
        form: Form::Hexadecimal,
        pass: false,
    }
}

/// `check --raw`.
pub fn raw_check_task() -> Task {
    Task::Check {
        form: Form::Raw,
        pass: false,
    }
}

/// `render`.
pub fn render_task() -> Task {
    Task::Render {
        form: Form::Hexadecimal,
        pass: false,
        width: LineWidth::usual(),
    }
}

/// `render --raw`.
pub fn raw_render_task() -> Task {
    Task::Render {
        form: Form::Raw,
        pass: false,
        width: LineWidth::usual(),
    }
}

/// `render --text`.
pub fn render_text_task() -> Task {
    Task::RenderText {
        form: Form::Hexadecimal,
        pass: false,
        width: LineWidth::usual(),
    }
}

/// `render --text --raw`.
pub fn raw_render_text_task() -> Task {
    Task::RenderText {
        form: Form::Raw,
        pass: false,
        width: LineWidth::usual(),
    }
}

/// `draw`.
pub fn draw_task() -> Task {
    Task::Draw {
        form: Form::Hexadecimal,
        pass: false,
        width: LineWidth::usual(),
    }
}

/// `draw --raw`.
pub fn raw_draw_task() -> Task {
    Task::Draw {
        form: Form::Raw,
        pass: false,
        width: LineWidth::usual(),
    }
}

/// `encode`.
pub fn encode_task() -> Task {
    Task::Encode {
        form: Form::Hexadecimal,
        options: ReceiptOptions::usual(),
    }
}

/// `encode --raw`.
pub fn raw_encode_task() -> Task {
    Task::Encode {
        form: Form::Raw,
        options: ReceiptOptions::usual(),
    }
}

/// `check --raw --pass`.
pub fn passing_check_task() -> Task {
    Task::Check {
        form: Form::Raw,
        pass: true,
    }
}

/// `render --raw --pass`.
pub fn passing_render_task() -> Task {
    Task::Render {
        form: Form::Raw,
        pass: true,
        width: LineWidth::usual(),
    }
}

/// `draw --raw --pass`.
pub fn passing_draw_task() -> Task {
    Task::Draw {
        form: Form::Raw,
        pass: true,
        width: LineWidth::usual(),
    }
}
